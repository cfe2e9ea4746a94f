//! Connections that the system refuses.

ghost use Rattle.std.specs.Prelude.{◌≡◌, ◌↔◌, IsTrue, true};
ghost use Rattle.nm_transport.specs.Shortage.{IsShortage, IsOfShortage};

use std::io;

/// Not enough memory (errno(3), Linux).
const ENOMEM: i32 = 12;
/// Too many open files in the system.
const ENFILE: i32 = 23;
/// Too many open files in the process.
const EMFILE: i32 = 24;
/// No room for buffers.
const ENOBUFS: i32 = 105;

/// Whether this error number says that the system lacks resources for one more connection.
fn is_of_shortage(code: i32) -> bool
    ensures { IsTrue result ↔ IsShortage code }
{
    code == ENOMEM || code == ENFILE || code == EMFILE || code == ENOBUFS
}

/// Whether the system refused a connection because it lacks resources for one more, so that no peer
/// is to blame.
pub(crate) fn is_shortage(error: &io::Error) -> bool
    ensures { IsTrue result ↔ IsOfShortage error.now }
{
    match error.raw_os_error() {
        Some(code) => is_of_shortage(code),
        None => false,
    }
}
