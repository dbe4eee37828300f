// Streams of a port of this machine.
use host_io::make_ready;
use std::net::{Ipv4Addr, SocketAddr, TcpListener, TcpStream};
use std::test::Fail;
use std::time::Duration;

#[test]
fn streams_are_made_ready(rt: HostRuntime) -> Result<(), Fail> {
    let listener = TcpListener::bind(&rt, SocketAddr::from((Ipv4Addr::LOCALHOST, 0)))?;
    let stream = TcpStream::connect(&rt, listener.local_addr()?)?;
    make_ready(&stream)?;
    assert!(rt; stream.nodelay()?);
    assert!(rt; stream.read_timeout()? == Some(Duration::from_secs(5)));
    assert!(rt; stream.write_timeout()? == Some(Duration::from_secs(30)));
    Ok(())
}
