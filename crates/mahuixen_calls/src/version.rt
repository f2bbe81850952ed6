// The library's version.
ghost use Rattle.std.specs.Prelude.{◌≡◌, ◌+◌, ◌*◌};

use mahuixen::version::mahuixen_version;

pub fn version() -> u64
    ensures { result ≡ 0 * 1000000 + 1 * 1000 + 0 }
{
    mahuixen_version()
}
