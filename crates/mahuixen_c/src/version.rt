// The library's version.
ghost use Rattle.std.specs.Prelude.{◌≡◌, ◌+◌, ◌*◌};

// 0.1.0: a million times the first number, a thousand times the second, and the third.
#[unsafe(no_mangle)]
pub extern "C" fn mahuixen_version() -> u64
    ensures { result ≡ 0 * 1000000 + 1 * 1000 + 0 }
{
    mahuixen::version::mahuixen_version()
}
