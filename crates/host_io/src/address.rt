// Where the host listens, and where it is rung.
ghost use Rattle.host_io.specs.Tcp.{IsLocal, IsReachedAt};

use std::net::{IpAddr, Ipv4Addr, Ipv6Addr};

/// This machine's own address: who listens there hears this machine alone.
pub(crate) fn local_address() -> IpAddr
    ensures local { IsLocal result }
{
    IpAddr::V4(Ipv4Addr::LOCALHOST)
}

/// Where this machine reaches who listens at the address. One that stands for all of its addresses is reached at its
/// own.
pub(crate) fn reached_at(address: IpAddr) -> IpAddr
    ensures { IsReachedAt address result }
{
    match address {
        IpAddr::V4(all) if all.is_unspecified() => local_address(),
        IpAddr::V6(all) if all.is_unspecified() => IpAddr::V6(Ipv6Addr::LOCALHOST),
        one => one,
    }
}
