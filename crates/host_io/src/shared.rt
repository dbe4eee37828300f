// A place that two share, under a lock. Each has the lock for one call, and one thread has both. It tells nothing.
ghost use Rattle.std.specs.Prelude.{◌≡◌, None, IfOk};

use crate::halves::SocketReader;
use crate::slot::Slot;
use crate::socket::SocketSink;
use crate::talk::Talk;
use crate::watch::Watch;
use crate::wire::Wire;
use rail_io::Keeper;
use std::alloc::Global;
use std::io;
use std::io::ErrorKind;
use std::sync::{Arc, Mutex};

/// One of two that share a place.
#[derive(Drop)]
pub struct Shared<T: Drop> {
    cell: Arc<Mutex<Option<T>>, Global>,
}

/// The reading half of a connection of a port.
pub type PortReader<W, K, T> = SocketReader<W, K, Shared<Talk<W, K>>, T>;

/// The writing half.
pub type PortSink<W, K> = SocketSink<W, K, Shared<Talk<W, K>>>;

/// Both halves.
pub type Halves<W, K, T> = (PortReader<W, K, T>, PortSink<W, K>);

/// The halves of a connection that lies in a place which they share. That they share it, and that the connection lies
/// there, no clause says: none sees which lock a half has, nor what lies under it.
pub(crate) fn halves_of<W: Wire + Drop, K: Keeper + Drop, T: Watch + Drop>(
    alloc: Global,
    talk: Talk<W, K>,
    watch: T,
) -> io::Result<Halves<W, K, T>>
    ensures free { IfOk result (λ halves. halves.1.cut ≡ 0) }
{
    let cell = Arc::new(alloc, Mutex::new(Some(talk)))?;
    match Arc::try_clone(&cell) {
        Ok(other) => Ok((
            SocketReader::of(watch, Shared { cell }),
            SocketSink::of(Shared { cell: other }),
        )),
        Err(_) => Err(io::Error::from(ErrorKind::OutOfMemory)),
    }
}

impl<T: Drop> Slot<T> for Shared<T> {
    ghost held = { λ _. None };

    fn take(&mut self) -> Option<T> {
        self.cell.try_lock()?.take()
    }

    fn put(&mut self, item: T) {
        if let Some(mut place) = self.cell.try_lock() {
            *place = Some(item);
        }
    }
}
