// `deliver` over words: a piece is received, and what it completes is done to the session.
#![tactic(auto)]

ghost use Rattle.std.specs.Prelude.{◌≡◌};
ghost use Rattle.refusal.specs.Refusals.{no_refusal};
ghost use Rattle.delivery.specs.Requests.{request_by_report, done_to};
ghost use Rattle.abi_receiver.specs.Words.{report_of};
ghost use Rattle.abi_connection.specs.Words.{abi_connection, handed};
ghost use Rattle.abi_session.specs.Words.{abi_session, session_of, session_numbers, answering};
ghost use Rattle.abi_delivery.specs.Words.{effect_words, applied_with, abi_applied, AbiDelivers};

use abi::header_of;
use abi_connection::abi_receive;
use abi_session::{answer_words, answering, session_numbers, session_of};
use delivery::{Effect, Request, apply, request_by_frame};

// The words that change when something is done to a session: no frame changes a handle.
#[derive(Clone, Copy)]
struct Done {
    numbers: [u64; 2],
    effect: [u64; 6],
}

fn no_effect() -> [u64; 6]
    ensures { result ≡ answering 0 0 no_refusal }
{
    [0, 0, 0, 0, 0, 0]
}

fn effect_words(effect: Effect) -> [u64; 6]
    ensures { result ≡ effect_words effect }
{
    match effect {
        Effect::Nothing => no_effect(),
        Effect::Malformed(n) => answering(5, 0, n),
        Effect::Answer(answer) => answer_words(answer),
    }
}

// What the words of a report ask of the session: only a whole frame asks for anything.
fn request_by_words(q: &[u64; 19], store: &[u8]) -> Request
    ensures { result ≡ request_by_report (report_of q.now) store.now }
{
    if q[0] == 2 {
        let h = [
            q[5], q[6], q[7], q[8], q[9], q[10], q[11], q[12], q[13], q[14],
        ];
        return request_by_frame(header_of(h), store);
    }
    Request::Nothing
}

// The handles are looked at only where something is asked of the session.
fn apply_words(ws: [u64; 2], handles: &[u64; 64], request: Request) -> Done
    ensures { applied_with result.numbers handles.now result.effect ≡ abi_applied (done_to (session_of (abi_session ws handles.now)) request) }
{
    match request {
        Request::Nothing => Done {
            numbers: ws,
            effect: no_effect(),
        },
        _ => {
            let d = apply(session_of(ws, *handles), request);
            Done {
                numbers: session_numbers(d.session),
                effect: effect_words(d.effect),
            }
        }
    }
}

// Takes bytes of the piece as `abi_receive` does, and does to the session what the report asks; answers the report's kind.
pub fn abi_deliver(
    link: &mut [u64; 2],
    numbers: &mut [u64; 23],
    block: &mut [u8; 32],
    sealed: &mut [u64; 18],
    first: &mut [u8; 96],
    key: &mut [u8; 16],
    nonce: &mut [u8; 12],
    session: &mut [u64; 2],
    handles: &[u64; 64],
    report: &mut [u64; 19],
    effect: &mut [u64; 6],
    piece: &[u8],
    store: &mut [u8],
) -> u64
    ensures { AbiDelivers (abi_connection link.old numbers.old block.old sealed.old first.old key.old nonce.old) (abi_session session.old handles.now) store.old piece.now result (handed (abi_connection link.new numbers.new block.new sealed.new first.new key.new nonce.new) report.new) (applied_with session.new handles.now effect.new) store.new }
{
    let kind = abi_receive(
        link, numbers, block, sealed, first, key, nonce, report, piece, store,
    );
    let request = request_by_words(report, store);
    let Done {
        numbers: ws,
        effect: e,
    } = apply_words(*session, handles, request);
    *session = ws;
    *effect = e;
    kind
}
