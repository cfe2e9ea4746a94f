//! The names, keys, packets and sinks that every layer of nullsim speaks of.
#![tactic(auto)]

pub mod event;
pub mod failures;
pub mod fault;
pub mod key;
pub mod laws;
pub mod limits;
pub mod mem_sink;
pub mod mem_wire;
pub mod number;
pub mod octets;
pub mod packet;
pub mod record;
pub mod remarks;
pub mod sink;
pub mod std_sink;
pub mod text;
pub mod time;
pub mod units;
pub mod wanted;
pub mod wire;

pub use event::{Event, Origin};
pub use fault::Fault;
pub use key::{Key, Place};
pub use mem_sink::MemSink;
pub use mem_wire::MemWire;
pub use number::{ChanNo, IfaceNo, NodeNo, PartNo, SourceNo};
pub use octets::Octets;
pub use packet::{Packet, Twin};
pub use record::{Dir, Record};
pub use remarks::Remarks;
pub use sink::{Sink, SinkFault};
pub use std_sink::StdSink;
pub use text::{number_of, push_number, push_text, split_once};
pub use time::Time;
pub use units::{push_rate, push_time};
pub use wanted::Wanted;
pub use wire::Wire;
