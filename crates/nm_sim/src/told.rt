//! What happened in an event, as a part says it.

ghost use Rattle.std.specs.Prelude.{◌≡◌};
ghost use Rattle.nm_sim.specs.Told.{octets_of_start};

use nm_base::{IfaceNo, Key};
use nm_forward::Counter;
use nm_iface::Start;
use nm_model::Offering;

/// A packet arrived: at which interface, and how many octets it has.
#[derive(Clone, Copy)]
pub struct Arrived {
    pub iface: IfaceNo,
    pub octets: u16,
    /// The counter of its node that says what became of it. It is not told where the record of the
    /// arrival is kept.
    pub counter: Option<Counter>,
}

/// A transmission started: at which interface, and how many octets its packet has.
#[derive(Clone, Copy)]
pub struct Started {
    pub iface: IfaceNo,
    pub octets: u16,
}

/// What happened in an event.
#[derive(Clone, Copy)]
pub struct Happened {
    /// The packet that arrived, if one did.
    pub arrived: Option<Arrived>,
    /// What became of what the node sent.
    pub offering: Offering,
    /// The transmission that started, if one did.
    pub started: Option<Started>,
}

/// An event that was done, and what happened in it.
#[derive(Clone, Copy)]
pub struct Told {
    pub key: Key,
    pub happened: Happened,
}

/// The transmission that starts, as it is told.
#[inline(always)]
pub(crate) fn octets_of_start(start: &Option<(IfaceNo, Start)>) -> Option<Started>
    ensures { result ≡ octets_of_start start.now }
{
    match start {
        Some((iface, start)) => Some(Started {
            iface: *iface,
            octets: start.item.packet.octet_count() as u16,
        }),
        None => None,
    }
}
