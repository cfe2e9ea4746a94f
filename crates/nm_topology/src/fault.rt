//! Why a topology text gives no topology.

ghost use Rattle.std.specs.Prelude.{◌≡◌};
ghost use Rattle.nm_topology.specs.Fault.{refusal_number, fault_number};

use nm_base::Fault;
use std::fmt;
use thiserror::Error;

/// What is wrong with a topology text: the first fault in the reading order (docs/FORMATS.md).
#[derive(Clone, Copy, Debug, PartialEq, Eq, Error)]
pub enum Refusal {
    Text,
    Missing,
    UnknownKey,
    Kind,
    Range,
    TooMany,
    DoubleName,
    NoSuch,
    IfaceUse,
    DoubleAddress,
    DoubleRoute,
    CutDelay,
    Hex,
}

/// Why no topology was made: the text is refused, or memory was. Nothing is left behind.
pub type TopoFault = Fault<Refusal>;

impl Refusal {
    /// The number of the refusal, 1 to 13.
    pub fn number(self) -> u8
        ensures { result ≡ refusal_number self }
    {
        match self {
            Refusal::Text => 1,
            Refusal::Missing => 2,
            Refusal::UnknownKey => 3,
            Refusal::Kind => 4,
            Refusal::Range => 5,
            Refusal::TooMany => 6,
            Refusal::DoubleName => 7,
            Refusal::NoSuch => 8,
            Refusal::IfaceUse => 9,
            Refusal::DoubleAddress => 10,
            Refusal::DoubleRoute => 11,
            Refusal::CutDelay => 12,
            Refusal::Hex => 13,
        }
    }

    /// What is wrong, in words.
    fn message(self) -> &'static str {
        match self {
            Refusal::Text => "not a TOML document in UTF-8",
            Refusal::Missing => "a required key is missing",
            Refusal::UnknownKey => "a key that the table does not have",
            Refusal::Kind => "a value of another type",
            Refusal::Range => "a value out of its range or form",
            Refusal::TooMany => "more members than the limit",
            Refusal::DoubleName => "two nodes or two interfaces with one name",
            Refusal::NoSuch => "a name of nothing that is there",
            Refusal::IfaceUse => "an interface that is not on exactly one end of one link",
            Refusal::DoubleAddress => "two interfaces with one address",
            Refusal::DoubleRoute => "two routes of one node with one prefix",
            Refusal::CutDelay => "no delay on a link between two partitions",
            Refusal::Hex => "not hexadecimal",
        }
    }
}

impl fmt::Display for Refusal {
    fn fmt<W: fmt::Write>(&self, f: &mut fmt::Formatter<W>) -> fmt::Result {
        f.write_str("topology refused: ")?;
        f.write_str(self.message())
    }
}

/// The number of a fault: that of the refusal, or 14 if memory was refused.
pub fn fault_number(fault: TopoFault) -> u8
    ensures { result ≡ fault_number fault }
{
    match fault {
        TopoFault::Refused(refusal) => refusal.number(),
        TopoFault::Memory => 14,
    }
}
