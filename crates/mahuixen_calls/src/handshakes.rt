// The handshake's steps, the mode that a server picks, and bodies of control frames.
ghost use Rattle.std.specs.Prelude.{◌≡◌};
ghost use Rattle.handshake.specs.Pick.{pick_of};
ghost use Rattle.handshake.specs.Table.{client_rows, server_rows};
ghost use Rattle.abi.specs.Words.{written};
ghost use Rattle.abi_handshake.specs.Words.{AbiStepped, mode_number};
ghost use Rattle.abi_bodies.specs.Words.{AbiReads, AbiWrites};

use mahuixen::handshakes::{
    mahuixen_client_step, mahuixen_pick_mode, mahuixen_read_body, mahuixen_server_step,
    mahuixen_write_body,
};

pub fn client_step(state: u64, tag: u64, verdict: &[u64; 4], refusal: &mut [u64; 4]) -> u64
    ensures { AbiStepped client_rows state tag verdict.now result refusal.new }
{
    mahuixen_client_step(state, tag, verdict, refusal)
}

pub fn server_step(state: u64, tag: u64, verdict: &[u64; 4], refusal: &mut [u64; 4]) -> u64
    ensures { AbiStepped server_rows state tag verdict.now result refusal.new }
{
    mahuixen_server_step(state, tag, verdict, refusal)
}

pub fn pick_mode(preferred: &[u32], allowed: &[u32]) -> u64
    ensures { result ≡ mode_number (pick_of preferred.now allowed.now) }
{
    mahuixen_pick_mode(preferred, allowed)
}

pub fn read_body(tag: u64, segment: &[u8], body: &mut [u64; 18]) -> u64
    ensures { AbiReads tag segment.now result body.new }
{
    mahuixen_read_body(tag, segment, body)
}

pub fn write_body(
    out: &mut [u8],
    tag: u64,
    body: &[u64; 8],
    first: &[u32],
    second: &[u32],
    bytes: &[u8],
    refusal: &mut [u64; 4],
) -> u64
    ensures { AbiWrites tag body.now first.now second.now bytes.now out.old (written result refusal.new) out.new }
{
    mahuixen_write_body(out, tag, body, first, second, bytes, refusal)
}
