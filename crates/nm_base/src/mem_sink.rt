//! A sink in memory, with a budget.

ghost use Rattle.std.specs.Prelude.{◌≡◌, ◌+◌, ◌-◌, ◌<◌, ◌≤◌, ◌++◌, [], Some, min, take};
ghost use Rattle.std.specs.Prelude.{length, vec_len, vec_capacity, IfOk, IsOk, OnErr, ◌↔◌};

use crate::failures::FailureCount;
use crate::sink::{Sink, SinkFault};
use std::alloc::{AllocError, Global};
use std::marker::Model;

/// Keeps what it takes, up to a budget of octets, and fails at each call after that. A clause sees
/// the octets that it took, the room that is left, and the count of failures.
#[derive(Drop)]
pub struct MemSink {
    held: Vec<u8>,
    left: usize,
    failed: FailureCount,
}

impl Model for MemSink {
    ghost use Rattle.std.specs.Prelude.{◌+◌, ◌≤◌, vec_len, vec_capacity};
    ghost use Rattle.nm_base.specs.Sink.{MemorySink};

    ghost Value = { MemorySink };

    ghost view = { λ s. record {
      octets = s.held.items;
      room = s.left;
      failures = s.failed;
    } };

    ghost invariant = { λ s. vec_len s.held + s.left ≤ vec_capacity s.held };
}

impl MemSink {
    /// An empty sink that takes this many octets. Its memory is taken here, so that no later call
    /// takes any.
    pub fn new(alloc: Global, budget: usize) -> Result<Self, AllocError>
        ensures { IfOk result (λ sink. sink ≡ record { octets = []; room = budget; failures = 0 }) }
    {
        Ok(MemSink {
            held: Vec::with_capacity(alloc, budget)?,
            left: budget,
            failed: FailureCount::new(),
        })
    }

    /// The octets taken so far.
    pub fn octets(&self) -> &[u8]
        ensures { result.now ≡ self.now.octets }
    {
        self.held.as_slice()
    }

    /// How many octets it would still take.
    pub fn room(&self) -> usize
        ensures { result ≡ self.now.room }
    {
        self.left
    }
}

impl Sink for MemSink {
    ghost seen = { λ s. record { taken = Some s.octets; failures = s.failures } };

    /// Takes as many octets as there is room for, and fails if there is none.
    fn write_some(&mut self, octets: &[u8]) -> Result<usize, SinkFault>
        requires { 0 < length octets.now }
        ensures bounds { IfOk result (λ n. (1 ≤ n) × (n ≤ length octets.now)) }
        ensures most { IfOk result (λ n. n ≡ min self.old.room (length octets.now)) }
        ensures taken { IfOk result (λ n. self.new
            ≡ record self.old {
              octets = self.old.octets ++ take n octets.now;
              room = self.old.room - n;
            }) }
        ensures full { IsOk result ↔ (0 < self.old.room) }
        ensures fault { OnErr result (self.new
            ≡ record self.old { failures = self.old.failures + 1 }) }
    {
        let count = self.left.min(octets.len());
        if count == 0 {
            self.failed.rise();
            return Err(SinkFault);
        }
        self.held.extend_from_slice(&octets[..count]).unwrap();
        self.left -= count;
        Ok(count)
    }
}
