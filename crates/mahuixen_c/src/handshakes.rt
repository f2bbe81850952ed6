// The handshake's steps, the mode that a server picks, and bodies of control frames.
ghost use Rattle.std.specs.Prelude.{◌≡◌};
ghost use Rattle.handshake.specs.Pick.{pick_of};
ghost use Rattle.handshake.specs.Table.{client_rows, server_rows};
ghost use Rattle.abi.specs.Words.{written};
ghost use Rattle.abi_handshake.specs.Words.{AbiStepped, mode_number};
ghost use Rattle.abi_bodies.specs.Words.{AbiReads, AbiWrites};

// The state that a client in a state comes to by a tag that came.
#[unsafe(no_mangle)]
pub extern "C" fn mahuixen_client_step(
    state: u64,
    tag: u64,
    verdict: &[u64; 4],
    refusal: &mut [u64; 4],
) -> u64
    ensures { AbiStepped client_rows state tag verdict.now result refusal.new }
{
    mahuixen::handshakes::mahuixen_client_step(state, tag, verdict, refusal)
}

// The same of a server.
#[unsafe(no_mangle)]
pub extern "C" fn mahuixen_server_step(
    state: u64,
    tag: u64,
    verdict: &[u64; 4],
    refusal: &mut [u64; 4],
) -> u64
    ensures { AbiStepped server_rows state tag verdict.now result refusal.new }
{
    mahuixen::handshakes::mahuixen_server_step(state, tag, verdict, refusal)
}

// The first of the client's preferred modes that is on the server's own list, or a number beyond 32 bits where none is.
#[unsafe(no_mangle)]
pub extern "C" fn mahuixen_pick_mode(preferred: &[u32], allowed: &[u32]) -> u64
    ensures { result ≡ mode_number (pick_of preferred.now allowed.now) }
{
    mahuixen::handshakes::mahuixen_pick_mode(preferred, allowed)
}

// Reads a body by its tag; answers its kind, 0 where it is refused.
#[unsafe(no_mangle)]
pub extern "C" fn mahuixen_read_body(tag: u64, segment: &[u8], body: &mut [u64; 18]) -> u64
    ensures { AbiReads tag segment.now result body.new }
{
    mahuixen::handshakes::mahuixen_read_body(tag, segment, body)
}

// Writes a body by its tag at the front of out; answers the bytes written, 0 where it is refused.
#[unsafe(no_mangle)]
pub extern "C" fn mahuixen_write_body(
    out: &mut [u8],
    tag: u64,
    body: &[u64; 8],
    first: &[u32],
    second: &[u32],
    bytes: &[u8],
    refusal: &mut [u64; 4],
) -> u64
    ensures { AbiWrites tag body.now first.now second.now bytes.now out.old (written result refusal.new) out.new }
{
    mahuixen::handshakes::mahuixen_write_body(out, tag, body, first, second, bytes, refusal)
}
