//! Why a text of listeners is refused.

use nm_base::Fault;
use thiserror::Error;

/// The text is no list of listeners.
#[derive(Clone, Copy, Debug, PartialEq, Eq, Error)]
#[error("no listeners")]
pub struct NoListeners;

/// Why listeners are not read: the text is no list of them, or memory was refused.
pub type ListenersFault = Fault<NoListeners>;
