//! Trace files in the pcap savefile format 2.4, with nanosecond times, as they are or in hexadecimal:
//! an exact prefix, whatever the sink does.
#![tactic(auto)]

pub mod form;
pub mod format;
pub mod laws;
pub mod writer;

pub use form::Form;
pub use writer::{PcapFault, PcapOut};
