// What opens connections.
use std::io;
use std::net::{Net, SocketAddr, TcpStream};
use std::time::Duration;

/// Opens connections over TCP, as a runtime with `Net` does. Unlike `Net` it has no types of its own: the toolchain covers threads that share a
/// value with such a bound, and not with the other.
pub trait Connector {
    /// A connection to this address, which is waited for no longer than so.
    fn connect_within(&self, address: SocketAddr, wait: Duration) -> io::Result<TcpStream>;
}

impl<R: Net<Stream = TcpStream>> Connector for R {
    fn connect_within(&self, address: SocketAddr, wait: Duration) -> io::Result<TcpStream> {
        TcpStream::connect_timeout(self, &address, wait)
    }
}
