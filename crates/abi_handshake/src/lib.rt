// The handshake's steps over words, and the mode that a server picks. Each promises the words of what `handshake` promises, for every word that C can hand in.
#![tactic(auto)]

ghost use Rattle.std.specs.Prelude.{◌≡◌};
ghost use Rattle.handshake.specs.Table.{state_number};
ghost use Rattle.handshake.specs.Pick.{pick_of};
ghost use Rattle.abi_handshake.specs.Words.{state_of, verdict_of, fits, step_with, report_words, abi_step, rows_by, AbiStepped, mode_number};

use abi::refusal_words;
use handshake::{AuthVerdict, State, Step, Verdict, client_step, pick_mode, server_step};
use refusal::{Numbers, Refusal};

// The next state and a refusal, or zeros.
#[derive(Clone, Copy)]
struct Words {
    state: u64,
    refusal: [u64; 4],
}

fn state_number(s: State) -> u64
    ensures { result ≡ state_number s }
{
    s as u64
}

// C's numbers become states here alone.
#[tactic(auto, unfolding(crate::specs::Words::state_of))]
fn state_of(n: u64) -> State
    ensures { result ≡ state_of n }
{
    match n {
        0 => State::Hello,
        1 => State::Auth,
        2 => State::More,
        3 => State::Signature,
        4 => State::Session,
        5 => State::Ready,
        6 => State::Standby,
        7 => State::Wait,
        _ => State::Closed,
    }
}

fn verdict_of(ws: [u64; 4]) -> Verdict
    ensures { result ≡ verdict_of ws }
{
    Verdict {
        auth: AuthVerdict::by_number(ws[0]),
        signature: ws[1] != 0,
        features: ws[2] != 0,
        reconnect: ws[3] != 0,
    }
}

// Every word is a number of its field.
fn fits(s: u64, tag: u64, ws: [u64; 4]) -> bool
    ensures { result ≡ fits s tag ws }
{
    s <= 8 && tag <= 255 && ws[0] <= 3 && ws[1] <= 1 && ws[2] <= 1 && ws[3] <= 1
}

fn report_words(report: Result<(), Numbers>) -> [u64; 4]
    ensures { result ≡ report_words report }
{
    refusal_words(report.err().unwrap_or_default())
}

fn step_words(step: Step) -> Words
    ensures { step_with result.state result.refusal ≡ abi_step step }
{
    Words {
        state: state_number(step.state),
        refusal: report_words(step.report),
    }
}

// A step of a server, or of a client.
#[tactic(auto, using(crate::proofs::Laws::tag_fits), unfolding(crate::specs::Words::step_from))]
fn stepped(at_server: bool, s: u64, tag: u64, ws: [u64; 4]) -> Words
    ensures { AbiStepped (rows_by at_server) s tag ws result.state result.refusal }
{
    if !fits(s, tag, ws) {
        return Words {
            state: s,
            refusal: refusal_words(Numbers::from(Refusal::StateContradicts)),
        };
    }
    let t = tag as u8;
    if at_server {
        return step_words(server_step(state_of(s), t, verdict_of(ws)));
    }
    step_words(client_step(state_of(s), t, verdict_of(ws)))
}

// Answers the state that a tag leads to, with the caller's verdict.
pub fn abi_step(
    at_server: bool,
    s: u64,
    tag: u64,
    verdict: &[u64; 4],
    refusal: &mut [u64; 4],
) -> u64
    ensures { AbiStepped (rows_by at_server) s tag verdict.now result refusal.new }
{
    let Words {
        state,
        refusal: why,
    } = stepped(at_server, s, tag, *verdict);
    *refusal = why;
    state
}

// The first of the client's preferred modes that is on the server's own list, or a number beyond 32 bits where none is.
pub fn abi_pick_mode(preferred: &[u32], allowed: &[u32]) -> u64
    ensures { result ≡ mode_number (pick_of preferred.now allowed.now) }
{
    pick_mode(preferred, allowed).map_or(4294967296, u64::from)
}
