// The builder's calls over words. Each promises the words of what `builder` promises, for every word that C can hand in.
#![tactic(auto)]

ghost use Rattle.abi.specs.Words.{written};
ghost use Rattle.abi_builder.specs.Words.{AbiBuiltBanner, AbiBuiltFrame};

use abi::{Written, abi_refused, hand_out, header_fits, header_of, revision_by_number, written_of};
use builder::{build_banner, build_frame};
use refusal::Refusal;

// Builds our banner behind the queued bytes; answers the bytes written, 0 where it is refused.
pub fn abi_build_banner(
    buf: &mut [u8],
    queued: u64,
    supported: u64,
    required: u64,
    refusal: &mut [u64; 4],
) -> u64
    ensures { AbiBuiltBanner supported required buf.old queued (written result refusal.new) buf.new }
{
    let answer = written_of(build_banner(buf, queued as usize, supported, required));
    hand_out(answer, refusal)
}

fn frame_written(
    buf: &mut [u8],
    queued: u64,
    revision: u64,
    ws: [u64; 10],
    abort: bool,
    source: &[u8],
) -> Written
    ensures { AbiBuiltFrame revision ws abort source.now buf.old queued result buf.new }
{
    if !header_fits(ws) {
        return abi_refused(Refusal::StateContradicts);
    }
    written_of(build_frame(
        buf,
        queued as usize,
        revision_by_number(revision),
        header_of(ws),
        abort,
        source,
    ))
}

// Builds a frame, whole or aborted, behind the queued bytes.
pub fn abi_build_frame(
    buf: &mut [u8],
    queued: u64,
    revision: u64,
    header: &[u64; 10],
    abort: bool,
    source: &[u8],
    refusal: &mut [u64; 4],
) -> u64
    ensures { AbiBuiltFrame revision header.now abort source.now buf.old queued (written result refusal.new) buf.new }
{
    let answer = frame_written(buf, queued, revision, *header, abort, source);
    hand_out(answer, refusal)
}
