// A bell at the door of a port.
ghost use Rattle.host_io.specs.Tcp.{IsLocal, IsReachedAt};

use crate::address::{local_address, reached_at};
use std::net::{IpAddr, Net};

/// How long it may take to ring. Where the port has no room for one connection more, nobody has to be woken.
pub(crate) const RING_SECONDS: u64 = 1;

/// Wakes whoever waits at a port of an address, by a connection that it lets go at once.
#[derive(Drop)]
pub struct TcpBell<N: Net + Drop> {
    pub(crate) net: N,
    /// The address at which those who wait are reached.
    pub(crate) address: IpAddr,
}

impl<N: Net + Drop> TcpBell<N> {
    /// A bell for those who listen at 127.0.0.1.
    pub fn new(net: N) -> Self
        ensures address { IsLocal result.address }
    {
        TcpBell {
            net,
            address: local_address(),
        }
    }

    /// A bell for those who listen at the address.
    pub fn at(self, address: IpAddr) -> Self
        ensures address { IsReachedAt address result.address }
    {
        TcpBell {
            net: self.net,
            address: reached_at(address),
        }
    }
}
