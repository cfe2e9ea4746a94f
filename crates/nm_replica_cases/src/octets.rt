//! Octets in hexadecimal.

use nm_fixtures::ZEROS;
use std::alloc::Global;
use std::io;

/// The octets of words in hexadecimal, put one after the other, with this digest for DIGEST, and 72
/// octets of 0 for ZEROS.
pub fn octets_of(alloc: Global, words: &[&str], digest: &[u8]) -> io::Result<Vec<u8>> {
    let mut text = String::new(alloc);
    for word in words {
        text.push_str(word)?;
    }
    let digest = hexadecimal(alloc, digest)?;
    let text = text.replace(alloc, "DIGEST", digest.as_str())?;
    let text = text.replace(alloc, "ZEROS", ZEROS)?;
    match hex::decode(alloc, text.as_str()) {
        Ok(octets) => Ok(octets),
        Err(_) => Err(io::Error::other("a text that is not hexadecimal")),
    }
}

/// Octets in hexadecimal.
pub fn hexadecimal(alloc: Global, octets: &[u8]) -> io::Result<String> {
    Ok(hex::encode(alloc, octets)?)
}

/// A text in hexadecimal, with DIGEST for this digest, and ZEROS for 72 octets of 0.
pub fn shortened(alloc: Global, text: &str, digest: &[u8]) -> io::Result<String> {
    let digest = hexadecimal(alloc, digest)?;
    let text = text.replace(alloc, digest.as_str(), "DIGEST")?;
    Ok(text.replace(alloc, ZEROS, "ZEROS")?)
}
