// The receiver's calls over words. Each promises the words of what `receiver` promises, for every word that C can hand in.
#![tactic(auto)]

pub mod words;

ghost use Rattle.abi_receiver.specs.Words.{abi_state, handed, ReceivedBy, ReadsBack};

use receiver::{Taken, receive_in};
use words::{contradicts, fits, known_of, numbers_of, report_words, stage_of, typed_known};

// A call: takes bytes of the piece up to and including the one that completes a report, and answers the report's kind. Where the piece ends no stage, one number,
// the bytes at their place and the report are written.
pub fn abi_receive(
    numbers: &mut [u64; 23],
    block: &mut [u8; 32],
    report: &mut [u64; 19],
    piece: &[u8],
    store: &mut [u8],
) -> u64
    ensures { ReceivedBy (abi_state numbers.old block.old) store.old piece.now result (handed numbers.new block.new report.new) store.new }
{
    let ws = *numbers;
    if !fits(ws) {
        *report = contradicts();
        return 4;
    }
    let known = known_of(ws);
    match receive_in(stage_of(ws[0]), ws[18] as usize, known, block, piece, store) {
        Taken::Partial(to) => {
            // for the proof: it does nothing
            typed_known(known);
            numbers[18] = to as u64;
            *report = report_words(piece.len() as u64, None);
            0
        }
        Taken::Moved(m) => {
            *numbers = numbers_of(m.stage, m.got, m.known);
            let said = report_words(m.taken as u64, m.report);
            *report = said;
            said[0]
        }
    }
}

// Nothing is lost in words, as a promise. The body does nothing: the promise is a theorem.
pub fn reads_back()
    ensures { ReadsBack }
{}
