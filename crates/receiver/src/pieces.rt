// Pieces of the stream: the bytes of one stage at a time, until one gives a report. The block and the store are filled where they stand.
ghost use Rattle.std.specs.Prelude.{◌≡◌, ◌+◌, ◌≤◌, ◌<◌, length};
ghost use Rattle.receiver.specs.declared.Place.TheVariants as places;
ghost use Rattle.receiver.specs.State.{size_of, needed};
ghost use Rattle.receiver.specs.Step.{state_at, block_with, store_with, Chunked, Fed, Running, moved_to};

use crate::states::{place_of, size_of};
use crate::transitions::end_stage;
use crate::{Known, Moved, Place, Stage};
use buffer::{min, part, put};

// Puts a stage's next bytes at their place, behind the `at` that came.
pub(crate) fn fill(place: Place, at: usize, block: &mut [u8], bytes: &[u8], store: &mut [u8])
    requires { (place ≡ places.Block → at + length bytes.now ≤ length block.old) × (place ≡ places.Store → at + length bytes.now ≤ length store.old) }
    ensures { (block.new ≡ block_with place at block.old bytes.now) × (store.new ≡ store_with place at store.old bytes.now) }
{
    match place {
        Place::Block => put(&mut block[at..], bytes),
        Place::Store => put(&mut store[at..], bytes),
        Place::Nowhere => {}
    }
}

// As many bytes as the stage still reads, or as the piece has.
fn step(
    stage: Stage,
    got: usize,
    known: Known,
    block: &mut [u8; 32],
    piece: &[u8],
    store: &mut [u8],
) -> Moved
    requires { (got < size_of stage known) × (needed stage known ≤ length store.old) }
    ensures { Chunked (state_at stage got block.old known) store.old piece.now (moved_to result block.new) store.new }
{
    let n = size_of(stage, known);
    let m = min(n - got, piece.len());
    let bytes = part(piece, 0, m);
    fill(place_of(stage), got, block, bytes, store);
    let to = got + m;
    if to < n {
        return Moved {
            stage,
            got: to,
            known,
            taken: m,
            report: None,
        };
    }
    let t = end_stage(stage, block, known, store);
    *block = [0u8; 32];
    Moved {
        stage: t.stage,
        got: t.got,
        known: t.known,
        taken: m,
        report: t.report,
    }
}

// A piece, stage by stage, up to and including the byte of the first report.
pub(crate) fn feed(
    from: Stage,
    came: usize,
    knew: Known,
    block: &mut [u8; 32],
    piece: &[u8],
    store: &mut [u8],
) -> Moved
    requires { Running (state_at from came block.old knew) store.old }
    ensures { Fed (state_at from came block.old knew) store.old piece.now (moved_to result block.new) store.new }
{
    // Each step decides how much it takes, so no iterator cuts the piece.
    let mut m = Moved {
        stage: from,
        got: came,
        known: knew,
        taken: 0,
        report: None,
    };
    while m.report.is_none() && m.taken < piece.len() {
        let o = step(m.stage, m.got, m.known, block, &piece[m.taken..], store);
        m = Moved {
            taken: m.taken + o.taken,
            ..o
        };
    }
    m
}
