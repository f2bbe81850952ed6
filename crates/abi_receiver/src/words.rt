// States and reports as words, and back.
ghost use Rattle.std.specs.Prelude.{◌≡◌, Some, List, ℕ, ◌≤◌, length};
ghost use Rattle.refusal.specs.Refusals.{judged_by, no_refusal, contradiction};
ghost use Rattle.banner.specs.Banner.{no_features};
ghost use Rattle.preamble.specs.Layout.{no_header};
ghost use Rattle.stream.specs.declared.Event.TheVariants as event;
ghost use Rattle.stream.specs.Events.{role_of};
ghost use Rattle.receiver.specs.declared.Stage.{Stage};
ghost use Rattle.receiver.specs.Step.{state_at};
ghost use Rattle.abi.specs.Words.{Within, max_u8, header_words, header_limits};
ghost use Rattle.receiver.specs.State.{stage_of};
ghost use Rattle.abi_receiver.specs.Words.{abi_state, known_with, known_of, numbers_with, fits, Typed, AbiOf, reporting, event_words, report_words, RoleTyped, ReportOf, number_of};

use abi::{
    header_fits, header_of, header_words, mark_number, refusal_words, revision_by_number,
    typed_header, typed_u8, typed_u16,
};
use banner::{Features, Revision, no_features, revision_number};
use preamble::{Header, no_header};
use receiver::states::rank;
use receiver::{Known, Stage, State};
use refusal::{Numbers, Refusal, no_refusal};
use stream::Event;

// C's numbers become stages here alone.
pub fn stage_of(n: u64) -> Stage
    ensures { result ≡ stage_of n }
{
    match n {
        0 => Stage::Magic,
        1 => Stage::Length,
        2 => Stage::Payload,
        3 => Stage::Skip,
        4 => Stage::Preamble,
        5 => Stage::First,
        6 => Stage::FirstSum,
        7 => Stage::Rest,
        8 => Stage::Epilogue,
        _ => Stage::Refused,
    }
}

// ---- states

// Every word is a number of its field.
pub fn fits(ws: [u64; 23]) -> bool
    ensures { result ≡ fits ws }
{
    let header = [
        ws[4], ws[5], ws[6], ws[7], ws[8], ws[9], ws[10], ws[11], ws[12], ws[13],
    ];
    ws[0] <= 9 && ws[1] <= 1 && ws[2] <= 1 && ws[3] <= 65535 && header_fits(header) && ws[14] <= 255
}

fn known_with(revision: Revision, ws: [u64; 23]) -> Known
    ensures { result ≡ known_with revision ws }
{
    let header = header_of([
        ws[4], ws[5], ws[6], ws[7], ws[8], ws[9], ws[10], ws[11], ws[12], ws[13],
    ]);
    Known {
        own: Features {
            supported: ws[19],
            required: ws[20],
        },
        payload: (ws[3] % 65536) as u16,
        peer: Features {
            supported: ws[21],
            required: ws[22],
        },
        revision,
        header,
        first: ws[2] != 0,
        refusal: Numbers {
            number: (ws[14] % 256) as u8,
            first: ws[15],
            second: ws[16],
            third: ws[17],
        },
    }
}

// What they say is known; and they are 23, which the type says.
pub fn known_of(ws: [u64; 23]) -> Known
    ensures { (result ≡ known_of ws) × (length ws ≡ 23) }
{
    known_with(revision_by_number(ws[1]), ws)
}

// The fields of what is known are of their types.
pub fn typed_known(known: Known)
    ensures { (stage : Stage) (got : ℕ) (block : List ℕ) → Typed (state_at stage got block known) }
{
    typed_u16(known.payload);
    typed_header(known.header);
    typed_u8(known.refusal.number);
}

fn numbers_with(stage: u64, revision: u64, first: u64, got: usize, known: Known) -> [u64; 23]
    ensures { result ≡ numbers_with stage revision first got known }
{
    let [tag, count, n1, a1, n2, a2, n3, a3, n4, a4] = header_words(known.header);
    let [number, one, two, three] = refusal_words(known.refusal);
    [
        stage,
        revision,
        first,
        known.payload as u64,
        tag,
        count,
        n1,
        a1,
        n2,
        a2,
        n3,
        a3,
        n4,
        a4,
        number,
        one,
        two,
        three,
        got as u64,
        known.own.supported,
        known.own.required,
        known.peer.supported,
        known.peer.required,
    ]
}

// The numbers of a state, whose block goes with them.
pub fn numbers_of(stage: Stage, got: usize, known: Known) -> [u64; 23]
    ensures { (block : List ℕ) → AbiOf (state_at stage got block known) (abi_state result block) }
{
    typed_known(known);
    numbers_with(
        rank(stage) as u64,
        revision_number(known.revision),
        mark_number(known.first),
        got,
        known,
    )
}

pub fn state_numbers(st: State) -> [u64; 23]
    ensures { AbiOf st (abi_state result st.position.block) }
{
    numbers_of(st.position.stage, st.position.got, st.known)
}

// ---- reports

fn reporting(
    kind: u64,
    taken: u64,
    revision: u64,
    peer: Features,
    h: Header,
    n: Numbers,
) -> [u64; 19]
    ensures { result ≡ reporting kind taken revision peer h n }
{
    let [tag, count, n1, a1, n2, a2, n3, a3, n4, a4] = header_words(h);
    let [number, one, two, three] = refusal_words(n);
    [
        kind,
        taken,
        revision,
        peer.supported,
        peer.required,
        tag,
        count,
        n1,
        a1,
        n2,
        a2,
        n3,
        a3,
        n4,
        a4,
        number,
        one,
        two,
        three,
    ]
}

// A frame that is handed over, kind 2, dropped, kind 3, or of which segment 1 is reported early, kind 5.
fn framed(kind: u64, taken: u64, header: Header) -> [u64; 19]
    ensures { (result ≡ reporting kind taken 0 no_features header no_refusal) × Within header_limits 0 (header_words header) }
{
    typed_header(header);
    reporting(kind, taken, 0, no_features(), header, no_refusal())
}

fn refused(taken: u64, n: Numbers) -> [u64; 19]
    ensures { (result ≡ reporting 4 taken 0 no_features no_header n) × (n.number ≤ max_u8) }
{
    typed_u8(n.number);
    reporting(4, taken, 0, no_features(), no_header(), n)
}

fn event_words(taken: u64, event: Event) -> [u64; 19]
    ensures { (result ≡ event_words taken event) × RoleTyped (role_of event) }
{
    match event {
        Event::Banner(peer, revision) => reporting(
            1,
            taken,
            revision_number(revision),
            peer,
            no_header(),
            no_refusal(),
        ),
        Event::First(header) => framed(5, taken, header),
        Event::Frame(header) => framed(2, taken, header),
        Event::Dropped(header) => framed(3, taken, header),
        Event::Refused(n) => refused(taken, n),
    }
}

pub fn report_words(taken: u64, report: Option<Event>) -> [u64; 19]
    ensures { ReportOf taken report result }
{
    match report {
        None => reporting(0, taken, 0, no_features(), no_header(), no_refusal()),
        Some(event) => event_words(taken, event),
    }
}

// The report on words that are no state.
pub fn contradicts() -> [u64; 19]
    ensures { result ≡ report_words 0 (Some (event.Refused contradiction)) }
{
    refused(0, Numbers::from(Refusal::StateContradicts))
}

// The number of a refusal, or 0.
pub fn number_of(v: Result<(), Refusal>) -> u64
    ensures { result ≡ number_of (judged_by v) }
{
    match v {
        Ok(()) => 0,
        Err(why) => Numbers::from(why).number as u64,
    }
}
