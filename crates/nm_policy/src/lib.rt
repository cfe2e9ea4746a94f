//! What a replica decides about its peers: which to call, and when again, which connections to
//! close, whether links have ended, and how long it stays for others. No call of the system is made
//! here.
#![tactic(auto)]

mod awaited;
pub mod callers;
pub mod contact;
pub mod contact_event;
pub mod contacts;
pub mod decisions;
pub mod ends;
pub mod lasting;
pub mod laws;
pub mod limits;
mod names;
pub mod peer;
pub mod staying;

pub use callers::Callers;
pub use contact::Contact;
pub use contact_event::ContactEvent;
pub use contacts::Contacts;
pub use ends::Ends;
pub use lasting::Lasted;
pub use peer::Peer;
pub use staying::Stay;
