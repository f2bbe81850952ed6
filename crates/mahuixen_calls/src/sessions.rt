// A session that outlives its connections.
ghost use Rattle.std.specs.Prelude.{◌≡◌};
ghost use Rattle.session.specs.Calls.{fresh_session};
ghost use Rattle.session.specs.Laws.{accept, ack, reconnect, reset};
ghost use Rattle.abi.specs.Words.{mark_of};
ghost use Rattle.abi_session.specs.Words.{abi_session, abi_of, outcome_with, AbiCalled, AbiFound};

use mahuixen::sessions::{
    mahuixen_session_accept_in, mahuixen_session_ack_in, mahuixen_session_held_in,
    mahuixen_session_reconnect_in, mahuixen_session_reset_in, mahuixen_session_start_in,
};

pub fn session_start(numbers: &mut [u64; 2], handles: &mut [u64; 64])
    ensures { abi_session numbers.new handles.new ≡ abi_of fresh_session }
{
    mahuixen_session_start_in(numbers, handles);
}

pub fn session_accept(
    numbers: &mut [u64; 2],
    handles: &mut [u64; 64],
    answer: &mut [u64; 6],
    handle: u64,
) -> u64
    ensures { AbiCalled (abi_session numbers.old handles.old) (accept handle) result (outcome_with numbers.new handles.new answer.new) }
{
    mahuixen_session_accept_in(numbers, handles, answer, handle)
}

pub fn session_ack(
    numbers: &mut [u64; 2],
    handles: &mut [u64; 64],
    answer: &mut [u64; 6],
    number: u64,
) -> u64
    ensures { AbiCalled (abi_session numbers.old handles.old) (ack number) result (outcome_with numbers.new handles.new answer.new) }
{
    mahuixen_session_ack_in(numbers, handles, answer, number)
}

pub fn session_reconnect(
    numbers: &mut [u64; 2],
    handles: &mut [u64; 64],
    answer: &mut [u64; 6],
    msg_seq: u64,
) -> u64
    ensures { AbiCalled (abi_session numbers.old handles.old) (reconnect msg_seq) result (outcome_with numbers.new handles.new answer.new) }
{
    mahuixen_session_reconnect_in(numbers, handles, answer, msg_seq)
}

pub fn session_reset(
    numbers: &mut [u64; 2],
    handles: &mut [u64; 64],
    answer: &mut [u64; 6],
    full: u64,
) -> u64
    ensures { AbiCalled (abi_session numbers.old handles.old) (reset (mark_of full)) result (outcome_with numbers.new handles.new answer.new) }
{
    mahuixen_session_reset_in(numbers, handles, answer, full)
}

pub fn session_held(numbers: &[u64; 2], handles: &[u64; 64], message: &mut [u64; 2], i: u64) -> u64
    ensures { AbiFound (abi_session numbers.now handles.now) i result message.new }
{
    mahuixen_session_held_in(numbers, handles, message, i)
}
