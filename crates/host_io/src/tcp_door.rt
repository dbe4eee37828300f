// A port of this machine and its bell, by one call of the system each. They tell nothing.
ghost use Rattle.std.specs.Prelude.{None};

use crate::bell::{RING_SECONDS, TcpBell};
use crate::door::Door;
use crate::pace::{IDLE_SECONDS, STALLED_SECONDS};
use crate::tcp_wire::TcpWire;
use rail_io::Bell;
use std::io::ErrorKind;
use std::net::{IpAddr, Net, SocketAddr, TcpListener, TcpStream};
use std::time::Duration;
use std::{io, thread, time};

/// Makes an accepted stream ready to be served: it is to send without delay, and a write of more than 30 seconds is to
/// fail, and a first read of more than 5. No clause says so.
pub fn make_ready(stream: &TcpStream) -> io::Result<()> {
    stream.set_nodelay(true)?;
    stream.set_read_timeout(Some(Duration::from_secs(IDLE_SECONDS)))?;
    stream.set_write_timeout(Some(Duration::from_secs(STALLED_SECONDS)))
}

/// A port of this machine.
#[derive(Drop)]
pub struct TcpDoor<N: Net + time::Clock + Drop> {
    pub(crate) net: N,
    pub(crate) listener: Option<TcpListener>,
}

impl<N: Net<Listener = TcpListener, Stream = TcpStream> + time::Clock + Drop> Door for TcpDoor<N> {
    type Wire = TcpWire;

    ghost calls = { λ _. None };

    fn listen(&mut self, address: IpAddr, port: u16) -> io::Result<()> {
        self.listener = Some(TcpListener::bind(&self.net, SocketAddr::new(address, port))?);
        Ok(())
    }

    fn accept(&mut self) -> io::Result<TcpWire> {
        let Some(listener) = &self.listener else {
            return Err(io::Error::from(ErrorKind::NotConnected));
        };
        let (stream, _) = listener.accept()?;
        make_ready(&stream)?;
        Ok(TcpWire { stream })
    }

    fn pause(&mut self, milliseconds: u64) {
        thread::sleep(&self.net, Duration::from_millis(milliseconds));
    }
}

impl<N: Net + Drop> Bell for TcpBell<N> {
    fn ring(&mut self, port: u16) {
        let door = SocketAddr::new(self.address, port);
        let _rung = TcpStream::connect_timeout(&self.net, &door, Duration::from_secs(RING_SECONDS));
    }
}
