//! Numbers that name parts of a topology, each a type of its own so that one is never taken for
//! another.
//!
//! Every number is that of the whole topology, in a partition too. A clause sees the number.

ghost use Rattle.std.specs.Prelude.{◌≡◌, ℕ};

use std::marker::{Model, PhantomData};

/// The number of a thing of one kind, from 0.
#[derive_where(Clone, Copy, Debug, PartialEq, Eq)]
pub struct Number<K> {
    number: u32,
    #[derive_where(skip)]
    kind: PhantomData<K>,
}

impl<K> Model for Number<K> {
    ghost Value = { ℕ };

    ghost view = { λ s. s.number };

    ghost inverse = { λ n. record { number = n; kind = record {} } };
}

impl<K> Number<K> {
    /// The thing with this number.
    pub fn new(number: u32) -> Self
        ensures { result ≡ number }
    {
        Number {
            number,
            kind: PhantomData,
        }
    }

    /// The number itself.
    pub fn number(self) -> u32
        ensures { result ≡ self }
    {
        self.number
    }

    /// The number as the index of a table of all things of its kind.
    pub fn index(self) -> usize
        ensures { result ≡ self }
    {
        self.number as usize
    }
}

/// Nodes.
pub enum Node {}

/// The number of a node, from 0 in the order of the topology text.
pub type NodeNo = Number<Node>;

/// Interfaces.
pub enum Iface {}

/// The number of an interface, from 0 in the order of the topology text.
pub type IfaceNo = Number<Iface>;

/// Channels.
pub enum Chan {}

/// The number of a channel, one direction of a link between two partitions, from 0 in the order of
/// the receiving interfaces' numbers.
pub type ChanNo = Number<Chan>;

/// Partitions.
pub enum Part {}

/// The number of a partition, as the topology text gives it.
pub type PartNo = Number<Part>;

/// Sources of traffic.
pub enum Source {}

/// The number of a source of traffic, from 0 in the order of the topology text.
pub type SourceNo = Number<Source>;
