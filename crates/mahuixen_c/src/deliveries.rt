// `deliver`.
ghost use Rattle.abi_connection.specs.Words.{abi_connection, handed};
ghost use Rattle.abi_session.specs.Words.{abi_session};
ghost use Rattle.abi_delivery.specs.Words.{applied_with, AbiDelivers};

// A call that also does to the session what a whole frame asks: an ack, a reconnect_ok, a reset. No handle is changed.
#[unsafe(no_mangle)]
pub extern "C" fn mahuixen_deliver_in(
    link: &mut [u64; 2],
    numbers: &mut [u64; 23],
    block: &mut [u8; 32],
    sealed: &mut [u64; 18],
    first: &mut [u8; 96],
    key: &mut [u8; 16],
    nonce: &mut [u8; 12],
    session: &mut [u64; 2],
    handles: &[u64; 64],
    report: &mut [u64; 19],
    effect: &mut [u64; 6],
    piece: &[u8],
    store: &mut [u8],
) -> u64
    ensures { AbiDelivers (abi_connection link.old numbers.old block.old sealed.old first.old key.old nonce.old) (abi_session session.old handles.now) store.old piece.now result (handed (abi_connection link.new numbers.new block.new sealed.new first.new key.new nonce.new) report.new) (applied_with session.new handles.now effect.new) store.new }
{
    mahuixen::deliveries::mahuixen_deliver_in(
        link, numbers, block, sealed, first, key, nonce, session, handles, report, effect, piece,
        store,
    )
}
