// A stream of a port, by one call of the system each. It tells no content.
ghost use Rattle.std.specs.Prelude.{None};

use crate::wire::{Wire, pieces_of};
use std::io;
use std::io::{Read, Write};
use std::net::{Shutdown, TcpStream};
use std::time::Duration;

/// A stream of a port. It tells no content.
#[derive(Drop)]
pub struct TcpWire {
    pub(crate) stream: TcpStream,
}

impl Wire for TcpWire {
    ghost incoming = { λ _. None };

    ghost outgoing = { λ _. None };

    ghost settings = { λ _. None };

    fn receive(&mut self, room: &mut [u8]) -> io::Result<usize> {
        (&self.stream).read(room)
    }

    fn send(&mut self, piece: &[u8]) -> io::Result<usize> {
        (&self.stream).write(piece)
    }

    fn send_both(&mut self, first: &[u8], second: &[u8]) -> io::Result<usize> {
        let pieces = pieces_of(first, second);
        self.stream.write_vectored(&pieces)
    }

    fn set_waits(&mut self, waits: bool) -> io::Result<()> {
        self.stream.set_nonblocking(!waits)
    }

    fn set_read_limit(&mut self, milliseconds: u64) -> io::Result<()> {
        let limit = Duration::from_millis(milliseconds);
        self.stream.set_read_timeout(Some(limit))
    }

    fn end_sending(&mut self) -> io::Result<()> {
        self.stream.shutdown(Shutdown::Write)
    }
}
