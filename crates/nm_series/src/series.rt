//! A network over time, step by step.

ghost use Rattle.std.specs.Prelude.{◌≡◌, ℕ, ◌-◌, List, IfOk};
ghost use Rattle.std.specs.Option.{option_map};
ghost use Rattle.nm_topology.specs.TopologyValue.{TopologyValue};
ghost use Rattle.nm_measure.specs.Measured.{IsMeasuredBefore, IsMeasuredStep};
ghost use Rattle.nm_series.specs.Series.{IsSeries, Nexts};

use crate::steps::end_of;
use nm_base::Time;
use nm_measure::Measured;
use nm_progress::Progress;
use nm_topology::Topology;
use std::alloc::{AllocError, Global};
use std::marker::Model;

/// A step: from when to when.
#[derive(Clone, Copy)]
pub struct Span {
    pub from: Time,
    pub until: Time,
}

impl Span {
    /// How long it is, in nanoseconds.
    pub fn length(&self) -> u64
        ensures { result ≡ self.now.until - self.now.from }
    {
        self.until
            .nanoseconds()
            .saturating_sub(self.from.nanoseconds())
    }
}

/// The counts of one of a kind up to a time. The rows of a step have what was added from its begin
/// to its end.
pub trait Totals: Drop {
    // What all of the kind had before a time of the run, by number.
    ghost had: { TopologyValue → ℕ → List Self → Type 0 };

    // The rows of a step, from when to when.
    ghost are_rows: { TopologyValue → ℕ → ℕ → List ℕ → Type 0 };

    /// What all of the kind had up to this time, before which all events were done, by number.
    fn all_before(
        alloc: Global,
        topology: &Topology,
        measured: &Measured,
        time: Time,
    ) -> Result<Vec<Self>, AllocError>
        requires { IsMeasuredBefore topology.now time measured.now }
        ensures { IfOk result (λ all. had topology.now time all.items) };

    /// The rows of a step, before which all of the kind had this and after which that.
    fn rows(
        alloc: Global,
        topology: &Topology,
        measured: &Measured,
        before: &[Self],
        after: &[Self],
        span: &Span,
    ) -> Result<Vec<u8>, AllocError>
        requires before { had topology.now span.now.from before.now }
        requires after { had topology.now span.now.until after.now }
        requires step { IsMeasuredStep topology.now span.now.from span.now.until measured.now }
        ensures rows { IfOk result
            (λ text. are_rows topology.now span.now.from span.now.until text.items) };
}

/// What all of a kind do over time. The network runs as its steps are asked for, and what they need
/// is kept of it, however long it runs.
#[derive(Drop)]
pub struct Series<T> {
    measured: Measured,
    /// What all had before `time`.
    before: Vec<T>,
    time: Time,
    step: u64,
}

impl<T> Model for Series<T> {
    ghost use Rattle.nm_series.specs.Series.{SeriesValue};

    ghost Value = { SeriesValue T };

    ghost view = { λ s. record {
      measured = s.measured;
      before = s.before.items;
      time = s.time;
      step = s.step;
    } };
}

impl<T: Totals> Series<T> {
    /// The series at the begin of a run, in steps of so many nanoseconds.
    ///
    /// # Errors
    ///
    /// If memory was refused.
    pub fn begin(alloc: Global, topology: &Topology, step: u64) -> Result<Self, AllocError>
        ensures series { IfOk result (IsSeries T.had topology.now) }
        ensures begin { IfOk result (λ s. (s.time ≡ 0) × (s.step ≡ step)) }
    {
        let time = Time::from_nanoseconds(0);
        let measured = Measured::begin(alloc, topology, None)?;
        let before = T::all_before(alloc, topology, &measured, time)?;
        Ok(Series {
            measured,
            before,
            time,
            step,
        })
    }

    /// The rows of the next step, or `None` if there is none. Now and then it is noted how far the
    /// run is.
    ///
    /// # Errors
    ///
    /// If memory was refused: no contract states the series then.
    pub fn next(
        &mut self,
        alloc: Global,
        topology: &Topology,
        progress: &Progress,
    ) -> Result<Option<Vec<u8>>, AllocError>
        requires { IsSeries T.had topology.now self.old }
        ensures { IfOk result (λ next. Nexts T.had T.are_rows topology.now self.old self.new
            (option_map (λ text. text.items) next)) }
    {
        if self.time >= topology.stop() {
            return Ok(None);
        }
        let span = Span {
            from: self.time,
            until: end_of(topology, self.time, self.step),
        };
        self.measured
            .advance(alloc, topology, span.until, progress)?;
        let after = T::all_before(alloc, topology, &self.measured, span.until)?;
        let text = T::rows(
            alloc,
            topology,
            &self.measured,
            self.before.as_slice(),
            after.as_slice(),
            &span,
        )?;
        self.before = after;
        self.time = span.until;
        Ok(Some(text))
    }
}
