// The part for sealed frames as words, and back.
ghost use Rattle.std.specs.Prelude.{◌≡◌};
ghost use Rattle.abi_connection.specs.Secure.{abi_secure, stage_number, stage_of, state_with, secure_of, numbers_with, with_bytes, fits, Typed, AbiOf};

use abi::{
    header_fits, header_of, header_words, mark_number, refusal_words, typed_header, typed_u8,
};
use refusal::Numbers;
use sealed_receiver::{Known, Position, Receiving, Stage, State};

fn stage_number(stage: Stage) -> u64
    ensures { result ≡ stage_number stage }
{
    match stage {
        Stage::First => 0,
        Stage::Second => 1,
        Stage::Last => 2,
        Stage::Refused => 3,
    }
}

// C's numbers become stages here alone.
fn stage_of(n: u64) -> Stage
    ensures { result ≡ stage_of n }
{
    match n {
        0 => Stage::First,
        1 => Stage::Second,
        2 => Stage::Last,
        _ => Stage::Refused,
    }
}

// Every word is a number of its field.
pub(crate) fn fits(ws: [u64; 18]) -> bool
    ensures { result ≡ fits ws }
{
    let header = [
        ws[2], ws[3], ws[4], ws[5], ws[6], ws[7], ws[8], ws[9], ws[10], ws[11],
    ];
    ws[0] <= 3 && ws[1] <= 1 && header_fits(header) && ws[12] <= 255
}

fn state_with(stage: Stage, ws: [u64; 18], first: [u8; 96], key: [u8; 16], nonce: [u8; 12]) -> State
    ensures { result ≡ state_with stage (abi_secure ws first key nonce) }
{
    let header = header_of([
        ws[2], ws[3], ws[4], ws[5], ws[6], ws[7], ws[8], ws[9], ws[10], ws[11],
    ]);
    State {
        position: Position {
            stage,
            got: ws[16] as usize,
            block: first,
        },
        known: Known {
            receiving: Receiving {
                key,
                nonce,
                opened: ws[17],
                exhausted: ws[1] != 0,
            },
            header,
            refusal: Numbers {
                number: (ws[12] % 256) as u8,
                first: ws[13],
                second: ws[14],
                third: ws[15],
            },
        },
    }
}

pub(crate) fn state_of(ws: [u64; 18], first: [u8; 96], key: [u8; 16], nonce: [u8; 12]) -> State
    ensures { result ≡ secure_of (abi_secure ws first key nonce) }
{
    state_with(stage_of(ws[0]), ws, first, key, nonce)
}

fn typed_state(st: State)
    ensures { Typed st }
{
    typed_header(st.known.header);
    typed_u8(st.known.refusal.number);
}

fn numbers_with(stage: u64, exhausted: u64, st: State) -> [u64; 18]
    ensures { result ≡ numbers_with stage exhausted st }
{
    let [tag, count, n1, a1, n2, a2, n3, a3, n4, a4] = header_words(st.known.header);
    let [number, one, two, three] = refusal_words(st.known.refusal);
    [
        stage,
        exhausted,
        tag,
        count,
        n1,
        a1,
        n2,
        a2,
        n3,
        a3,
        n4,
        a4,
        number,
        one,
        two,
        three,
        st.position.got as u64,
        st.known.receiving.opened,
    ]
}

// The numbers of a state; its bytes go with them.
pub(crate) fn numbers_of(st: State) -> [u64; 18]
    ensures { AbiOf st (with_bytes result st) }
{
    typed_state(st);
    numbers_with(
        stage_number(st.position.stage),
        mark_number(st.known.receiving.exhausted),
        st,
    )
}
