// A session that outlives its connections.
ghost use Rattle.std.specs.Prelude.{◌≡◌};
ghost use Rattle.session.specs.Calls.{fresh_session};
ghost use Rattle.session.specs.Laws.{accept, ack, reconnect, reset};
ghost use Rattle.abi.specs.Words.{mark_of};
ghost use Rattle.abi_session.specs.Words.{abi_session, abi_of, outcome_with, AbiCalled, AbiFound};

// A session of which no message was sent.
#[unsafe(no_mangle)]
pub extern "C" fn mahuixen_session_start_in(numbers: &mut [u64; 2], handles: &mut [u64; 64])
    ensures { abi_session numbers.new handles.new ≡ abi_of fresh_session }
{
    mahuixen::sessions::mahuixen_session_start_in(numbers, handles);
}

// A message is sent, and its handle is held under the next number; answers the kind of the answer, as every call does.
#[unsafe(no_mangle)]
pub extern "C" fn mahuixen_session_accept_in(
    numbers: &mut [u64; 2],
    handles: &mut [u64; 64],
    answer: &mut [u64; 6],
    handle: u64,
) -> u64
    ensures { AbiCalled (abi_session numbers.old handles.old) (accept handle) result (outcome_with numbers.new handles.new answer.new) }
{
    mahuixen::sessions::mahuixen_session_accept_in(numbers, handles, answer, handle)
}

// The peer has the messages up to a number.
#[unsafe(no_mangle)]
pub extern "C" fn mahuixen_session_ack_in(
    numbers: &mut [u64; 2],
    handles: &mut [u64; 64],
    answer: &mut [u64; 6],
    number: u64,
) -> u64
    ensures { AbiCalled (abi_session numbers.old handles.old) (ack number) result (outcome_with numbers.new handles.new answer.new) }
{
    mahuixen::sessions::mahuixen_session_ack_in(numbers, handles, answer, number)
}

// reconnect_ok with a msg_seq came.
#[unsafe(no_mangle)]
pub extern "C" fn mahuixen_session_reconnect_in(
    numbers: &mut [u64; 2],
    handles: &mut [u64; 64],
    answer: &mut [u64; 6],
    msg_seq: u64,
) -> u64
    ensures { AbiCalled (abi_session numbers.old handles.old) (reconnect msg_seq) result (outcome_with numbers.new handles.new answer.new) }
{
    mahuixen::sessions::mahuixen_session_reconnect_in(numbers, handles, answer, msg_seq)
}

// A reset came, a full one where the number is not 0.
#[unsafe(no_mangle)]
pub extern "C" fn mahuixen_session_reset_in(
    numbers: &mut [u64; 2],
    handles: &mut [u64; 64],
    answer: &mut [u64; 6],
    full: u64,
) -> u64
    ensures { AbiCalled (abi_session numbers.old handles.old) (reset (mark_of full)) result (outcome_with numbers.new handles.new answer.new) }
{
    mahuixen::sessions::mahuixen_session_reset_in(numbers, handles, answer, full)
}

// The message at a place of those held, oldest first: answers 1 and the message, 0 where there are fewer, or 26.
#[unsafe(no_mangle)]
pub extern "C" fn mahuixen_session_held_in(
    numbers: &[u64; 2],
    handles: &[u64; 64],
    message: &mut [u64; 2],
    i: u64,
) -> u64
    ensures { AbiFound (abi_session numbers.now handles.now) i result message.new }
{
    mahuixen::sessions::mahuixen_session_held_in(numbers, handles, message, i)
}
