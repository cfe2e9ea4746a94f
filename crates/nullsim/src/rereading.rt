//! Inputs that are read again, for further lines. Only files can be: what came through a pipe is
//! gone, and to open it again may wait for ever.

use nm_topology::Topology;
use std::fs;
use std::io::{self, ErrorKind, Read};

/// The octets of a file.
///
/// # Errors
///
/// If it is no file or cannot be read, or memory was refused.
pub fn read_again(rt: &HostRuntime, name: &str) -> io::Result<Vec<u8>> {
    if !fs::metadata(rt, name)?.is_file() {
        return Err(io::Error::from(ErrorKind::InvalidInput));
    }
    let mut text = Vec::new(rt.alloc());
    fs::open(rt, name)?.read_to_end(&mut text)?;
    Ok(text)
}

/// The network of the text of a file.
///
/// # Errors
///
/// If it is no file or cannot be read, its text is refused, or memory was refused.
pub fn read_network(rt: &HostRuntime, name: &str) -> io::Result<Topology> {
    let text = read_again(rt, name)?;
    match Topology::read(rt.alloc(), text.as_slice()) {
        Ok(network) => Ok(network),
        Err(_) => Err(io::Error::from(ErrorKind::InvalidData)),
    }
}
