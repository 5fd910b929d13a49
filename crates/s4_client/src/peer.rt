//! A connection over TCP.

use std::io;
use std::net::{Net, TcpStream};

/// Connects to the address, as it stands. What is written goes out at once.
pub fn connect<N: Net<Stream = TcpStream>>(net: &N, address: &str) -> io::Result<TcpStream> {
    let stream = TcpStream::connect(net, address)?;
    stream.set_nodelay(true)?;
    Ok(stream)
}
