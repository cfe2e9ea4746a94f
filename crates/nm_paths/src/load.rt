//! What the sources ask of each link.

use crate::demand::{end_of, rate_of};
use crate::ways::Way;
use nm_base::{Remarks, Time, push_rate, push_text, push_time};
use nm_topology::Topology;
use nm_topology::traffic::Flow;
use std::alloc::{AllocError, Global};

/// A flow begins or ends to pass an interface. Changes at one interface are ordered by their times,
/// and at one time ends before beginnings.
#[derive(Clone, Copy, PartialEq, Eq, PartialOrd, Ord)]
struct Change {
    iface: usize,
    /// Nanoseconds.
    time: u64,
    begins: bool,
    /// Bits per second.
    rate: u64,
}

/// The greatest sum of rates that is asked of an interface, and when: the first time that it is.
#[derive(Clone, Copy)]
struct Peak {
    /// Bits per second.
    rate: u64,
    /// Nanoseconds.
    from: u64,
    /// Nanoseconds; `None` while nothing has ended since.
    until: Option<u64>,
}

/// No flow passed so far.
const NO_PEAK: Peak = Peak {
    rate: 0,
    from: 0,
    until: None,
};

/// Flows over interfaces. The times are those at the source: how long packets are on the way is not
/// counted.
#[derive(Drop)]
pub struct Load {
    changes: Vec<Change>,
}

impl Load {
    /// No flows.
    pub fn new(alloc: Global) -> Self {
        Load {
            changes: Vec::new(alloc),
        }
    }

    /// A flow goes this way, by each interface as often as the way has it. One packet alone is no
    /// flow.
    pub fn add(&mut self, flow: &Flow, way: &Way, stop: Time) -> Result<(), AllocError> {
        let from = flow.start.nanoseconds();
        let until = end_of(flow, stop);
        if flow.count < 2 || until <= from {
            return Ok(());
        }
        let rate = rate_of(flow);
        for via in &way.hops {
            self.add_at(via.index(), rate, from, until)?;
        }
        Ok(())
    }

    /// A flow of this rate passes an interface between these times.
    fn add_at(&mut self, iface: usize, rate: u64, from: u64, until: u64) -> Result<(), AllocError> {
        self.changes.push(Change {
            iface,
            time: from,
            begins: true,
            rate,
        })?;
        self.changes.push(Change {
            iface,
            time: until,
            begins: false,
            rate,
        })?;
        Ok(())
    }

    /// Appends a remark for each interface that is asked for more than the rate of its link.
    pub fn push_remarks(
        self,
        alloc: Global,
        topology: &Topology,
        remarks: &mut Remarks,
    ) -> Result<(), AllocError> {
        let mut changes = self.changes;
        changes.sort_unstable();
        push_peaks(alloc, topology, &changes, remarks)
    }
}

/// The flows over one interface, as its changes are gone through.
#[derive(Clone, Copy)]
struct Sweep {
    iface: usize,
    /// Bits per second of the flows that pass now.
    sum: u64,
    peak: Peak,
}

impl Sweep {
    /// Before the first change at an interface.
    fn at(iface: usize) -> Self {
        Sweep {
            iface,
            sum: 0,
            peak: NO_PEAK,
        }
    }

    /// After one change more.
    fn and(self, change: Change) -> Self {
        let Sweep { iface, sum, peak } = self;
        if !change.begins {
            let until = peak.until.or(Some(change.time));
            return Sweep {
                iface,
                sum: sum.saturating_sub(change.rate),
                peak: Peak { until, ..peak },
            };
        }
        let sum = sum.saturating_add(change.rate);
        let risen = Peak {
            rate: sum,
            from: change.time,
            until: None,
        };
        let peak = if sum > peak.rate { risen } else { peak };
        Sweep { iface, sum, peak }
    }
}

/// Appends a remark for each interface that is asked for more than the rate of its link, by these
/// changes in their order.
fn push_peaks(
    alloc: Global,
    topology: &Topology,
    changes: &[Change],
    remarks: &mut Remarks,
) -> Result<(), AllocError> {
    let mut sweep = Sweep::at(0);
    for change in changes {
        if change.iface != sweep.iface {
            push_peak(alloc, topology, sweep, remarks)?;
            sweep = Sweep::at(change.iface);
        }
        sweep = sweep.and(*change);
    }
    push_peak(alloc, topology, sweep, remarks)
}

/// Appends a remark if an interface is asked for more than the rate of its link.
fn push_peak(
    alloc: Global,
    topology: &Topology,
    sweep: Sweep,
    remarks: &mut Remarks,
) -> Result<(), AllocError> {
    let Some(iface) = topology.ifaces().get(sweep.iface) else {
        return Ok(());
    };
    let capacity = iface.far().rate;
    let Peak { rate, from, until } = sweep.peak;
    if rate <= capacity {
        return Ok(());
    }
    let (number, name) = (sweep.iface, iface.name());
    let mut remark = Vec::new(alloc);
    let begin = format!(in alloc; "iface {number} (\"{name}\"): sources ask for ")?;
    push_text(&mut remark, begin.as_bytes())?;
    push_rate(&mut remark, rate)?;
    push_text(&mut remark, b" from ")?;
    push_time(&mut remark, from)?;
    push_text(&mut remark, b" to ")?;
    push_time(&mut remark, until.unwrap_or(topology.stop().nanoseconds()))?;
    push_text(&mut remark, b", its link has ")?;
    push_rate(&mut remark, capacity)?;
    remarks.add(remark.as_slice())
}
