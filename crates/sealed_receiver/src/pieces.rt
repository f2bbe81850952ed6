// Pieces of the stream: the bytes of one part at a time, until one gives a report.
ghost use Rattle.std.specs.Prelude.{◌≡◌, ◌+◌, ◌<◌, ◌≤◌, true, length};
ghost use Rattle.sealed_receiver.specs.Step.{store_with, Chunked, Fed, Running};

use crate::parts::end_part;
use crate::states::{in_frame, is_first, place_of, size_of};
use crate::{Position, Received, State};
use buffer::{min, part, put};

// Puts bytes at a place of the buffer that they go into.
fn fill(here: bool, buf: &mut [u8], at: usize, bytes: &[u8])
    requires { here ≡ true → at + length bytes.now ≤ length buf.old }
    ensures { buf.new ≡ store_with here at buf.old bytes.now }
{
    if here {
        put(&mut buf[at..], bytes);
    }
}

// As many bytes as the part still has, or as the piece has.
fn step(st: State, piece: &[u8], store: &mut [u8]) -> Received
    requires { Running st store.old }
    ensures { Chunked st store.old piece.now result store.new }
{
    let Position { stage, got, block } = st.position;
    let header = st.known.header;
    let n = size_of(stage, header);
    let m = min(n - got, piece.len());
    let bytes = part(piece, 0, m);
    let mut block = block;
    fill(is_first(stage), &mut block, got, bytes);
    fill(in_frame(stage), store, place_of(stage, header) + got, bytes);
    let to = got + m;
    if to < n {
        return Received {
            state: State {
                position: Position {
                    stage,
                    got: to,
                    block,
                },
                known: st.known,
            },
            taken: m,
            report: None,
        };
    }
    let t = end_part(stage, block, st.known, store);
    Received {
        state: t.state,
        taken: m,
        report: t.report,
    }
}

// A piece, part by part, up to and including the byte of the first report. The crc receiver has the same loop over fields that stand apart, its block elsewhere.
pub(crate) fn take_piece(state: State, piece: &[u8], store: &mut [u8]) -> Received
    requires { Running state store.old }
    ensures { Fed state store.old piece.now result store.new }
{
    let mut st = state;
    let mut at: usize = 0;
    while at < piece.len() {
        let o = step(st, &piece[at..], store);
        at += o.taken;
        st = o.state;
        if o.report.is_some() {
            return Received {
                state: st,
                taken: at,
                report: o.report,
            };
        }
    }
    Received {
        state: st,
        taken: at,
        report: None,
    }
}
