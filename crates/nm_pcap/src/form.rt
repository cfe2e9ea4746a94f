//! The forms in which a trace file may be written.

/// How the octets of a trace file are written.
#[derive(Clone, Copy, Debug, PartialEq, Eq)]
pub enum Form {
    /// As they are.
    Octets,
    /// As lower-case hexadecimal, two digits an octet, and a line feed at the end.
    Hexadecimal,
}
