// The reading half of a connection of a port, and what becomes of it when it is let go.
use crate::slot::Slot;
use crate::socket::end_talk;
use crate::talk::Talk;
use crate::watch::Watch;
use crate::wire::Wire;
use rail_io::Keeper;
use std::marker::PhantomData;

/// The reading half of a connection. What was answered is to be sent before it waits for more: of a read that gives
/// bytes `read` of `Talk` says so.
///
/// A read is to fail that waits for more than 5 seconds where nothing has come since the last answer. Inside a request
/// it may wait for 30, and not past the 60th second after the request's first byte. A read is to fail too before which
/// the answers can't be sent.
///
/// Where a read gives bytes, its stream is set to the limit that its pace then has, or neither has changed. That a read
/// asks its pace for that limit first, and tells it what came, is read. What the pace makes of these is said by its
/// clauses.
///
/// Where the other side hasn't ended the connection when it is let go, it is to be told that no more answers come. What
/// it still sends is to be read away for a moment, so that it gets to read the last answer: see `Talk`.
pub struct SocketReader<
    W: Wire + Drop,
    K: Keeper + Drop,
    S: Slot<Talk<W, K>> + Drop,
    T: Watch + Drop,
> {
    pub(crate) watch: T,
    pub(crate) slot: S,
    pub(crate) of: PhantomData<Talk<W, K>>,
}

impl<W: Wire + Drop, K: Keeper + Drop, S: Slot<Talk<W, K>> + Drop, T: Watch + Drop> Drop
    for SocketReader<W, K, S, T> {
    fn drop(self) {
        let SocketReader {
            mut watch,
            mut slot,
            of: _,
        } = self;
        end_talk::<W, K, S, T>(&mut watch, &mut slot);
    }
}
