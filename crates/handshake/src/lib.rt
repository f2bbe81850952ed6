// The handshake as steps: a side's state and the tag of a frame that came lead to the next state. And the mode that a server picks.
#![tactic(auto)]

ghost use Rattle.std.specs.Prelude.{◌≡◌};
ghost use Rattle.tag.specs.Tags.{number_of};
ghost use Rattle.handshake.specs.Table.{auth_of, led_to, both_rows, client_rows, server_rows, find};
ghost use Rattle.handshake.specs.Steps.{Stepped, step_by};
ghost use Rattle.handshake.specs.Runs.{EveryRun};
ghost use Rattle.handshake.specs.Pick.{pick_of};
ghost use Rattle.handshake.specs.Worked.{Worked};

use refusal::{Numbers, Refusal};
use tag::Tag;

// A side's states (004's two diagrams). A server alone is in More and Standby, a client alone in Wait.
#[derive(Clone, Copy, PartialEq, Eq)]
pub enum State {
    Hello,
    Auth,
    More,
    Signature,
    Session,
    Ready,
    Standby,
    Wait,
    Closed,
}

// Where a server's caller leads to from an auth request.
#[derive(Clone, Copy, PartialEq, Eq)]
pub enum AuthVerdict {
    Stay,
    More,
    Signature,
    Standby,
}

impl AuthVerdict {
    // By its number, as C has it; any above 3 is the last one too.
    pub fn by_number(n: u64) -> AuthVerdict
        ensures { result ≡ auth_of n }
    {
        match n {
            0 => AuthVerdict::Stay,
            1 => AuthVerdict::More,
            2 => AuthVerdict::Signature,
            _ => AuthVerdict::Standby,
        }
    }

    // Where it leads to, from the state that stay stays in.
    fn led(self, stay: State) -> State
        ensures { result ≡ led_to self stay }
    {
        match self {
            AuthVerdict::Stay => stay,
            AuthVerdict::More => State::More,
            AuthVerdict::Signature => State::Signature,
            AuthVerdict::Standby => State::Standby,
        }
    }
}

// All that the caller may be asked. A step looks at its own part alone.
#[derive(Clone, Copy, PartialEq, Eq)]
pub struct Verdict {
    // Where a server's auth request leads to.
    pub auth: AuthVerdict,
    // The signature is good.
    pub signature: bool,
    // The client ident misses no feature.
    pub features: bool,
    // The reconnect is accepted.
    pub reconnect: bool,
}

// The state that a step leads to, and the refusal where the tag was not taken.
#[derive(Clone, Copy, PartialEq, Eq)]
pub struct Step {
    pub state: State,
    pub report: Result<(), Numbers>,
}

// ---- the table

// The rows of both sides.
#[tactic(auto, unfolding(crate::specs::Table::find))]
fn both_next(s: State, tag: Tag, v: Verdict) -> Option<State>
    ensures { result ≡ find both_rows s (number_of tag) v }
{
    Some(match (s, tag) {
        (State::Hello, Tag::Hello) => State::Auth,
        (State::Signature, Tag::AuthSignature) if v.signature => State::Session,
        (State::Ready, Tag::Message | Tag::Keepalive2 | Tag::Keepalive2Ack | Tag::Ack) =>
            State::Ready,
        _ => return None,
    })
}

#[tactic(auto, unfolding(crate::specs::Table::find))]
fn client_next(s: State, tag: Tag, v: Verdict) -> Option<State>
    ensures { result ≡ find client_rows s (number_of tag) v }
{
    Some(match (s, tag) {
        (State::Auth, Tag::AuthBadMethod | Tag::AuthReplyMore) => State::Auth,
        (State::Auth, Tag::AuthDone) => State::Signature,
        (State::Session, Tag::ServerIdent | Tag::SessionReconnectOk) => State::Ready,
        (State::Session, Tag::IdentMissingFeatures) => State::Closed,
        (State::Session, Tag::Wait) => State::Wait,
        (State::Session, Tag::SessionReset | Tag::SessionRetry | Tag::SessionRetryGlobal) =>
            State::Session,
        _ => return both_next(s, tag, v),
    })
}

#[tactic(auto, unfolding(crate::specs::Table::find))]
fn server_next(s: State, tag: Tag, v: Verdict) -> Option<State>
    ensures { result ≡ find server_rows s (number_of tag) v }
{
    Some(match (s, tag) {
        (State::Auth, Tag::AuthRequest) | (State::More, Tag::AuthRequestMore) => v.auth.led(s),
        (State::Session, Tag::ClientIdent) if v.features => State::Ready,
        (State::Session, Tag::ClientIdent) => State::Closed,
        (State::Session, Tag::SessionReconnect) if v.reconnect => State::Ready,
        (State::Session, Tag::SessionReconnect) => State::Session,
        _ => return both_next(s, tag, v),
    })
}

// ---- the steps

// What the table does not have is refused, and the state is closed.
fn advance(next: Option<State>, tag: u8) -> Step
    ensures { result ≡ step_by next tag }
{
    match next {
        Some(state) => Step {
            state,
            report: Ok(()),
        },
        None => Step {
            state: State::Closed,
            report: Err(Numbers::from(Refusal::UnexpectedTag(tag))),
        },
    }
}

// A client in the state s gets a frame with a tag. One function for each side, since each has a table of its own.
#[tactic(auto, using(crate::proofs::Walks::client_unlisted))]
pub fn client_step(s: State, tag: u8, v: Verdict) -> Step
    ensures { Stepped client_rows s tag v result }
{
    match Tag::try_from(tag) {
        Ok(known) => advance(client_next(s, known, v), tag),
        Err(_) => advance(None, tag),
    }
}

// A server in the state s gets a frame with a tag.
#[tactic(auto, using(crate::proofs::Walks::server_unlisted))]
pub fn server_step(s: State, tag: u8, v: Verdict) -> Step
    ensures { Stepped server_rows s tag v result }
{
    match Tag::try_from(tag) {
        Ok(known) => advance(server_next(s, known, v), tag),
        Err(_) => advance(None, tag),
    }
}

// What holds of every run of one side's steps from hello, as a promise. The body does nothing: the promise is a theorem.
pub fn every_run()
    ensures { EveryRun }
{}

// The worked runs and picks are what the rules say.
pub fn worked_runs()
    ensures { Worked }
{}

// ---- the mode

// The first of the client's preferred modes that is on the server's own list, or none.
pub fn pick_mode(preferred: &[u32], allowed: &[u32]) -> Option<u32>
    ensures { result ≡ pick_of preferred.now allowed.now }
{
    preferred
        .iter()
        .copied()
        .find(|mode| allowed.contains(mode))
}
