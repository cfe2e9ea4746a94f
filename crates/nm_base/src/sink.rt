//! Sinks: where octets go. A sink may take a part of what it gets, and may fail.

ghost use Rattle.std.specs.Prelude.{◌≡◌, ◌+◌, ◌<◌, ◌≤◌, length, take, is_ok};
ghost use Rattle.std.specs.Prelude.{if◌then◌else◌, OnErr, OnOk, IfOk};
ghost use Rattle.std.specs.Io.KnownBytes.{WriteAppends};
ghost use Rattle.nm_base.specs.Sink.{HasFailedOnce, HasNotFailed, HasTaken, SinkSeen};
ghost use Rattle.nm_base.specs.Sink.{WroteAll, WrotePrefix};

use thiserror::Error;

/// A sink took nothing: the call that answers this failed.
#[derive(Clone, Copy, Debug, PartialEq, Eq, Error)]
#[error("the sink failed")]
pub struct SinkFault;

/// Something that takes octets.
pub trait Sink {
    // What is seen of it: the octets taken so far, and how often it has failed.
    ghost seen: { Self → SinkSeen };

    /// Takes the first octets of a list that is not empty, at least one of them, and answers how
    /// many.
    ///
    /// # Errors
    ///
    /// `SinkFault` if the sink failed. It took nothing then, and its count of failures is one more.
    fn write_some(&mut self, octets: &[u8]) -> Result<usize, SinkFault>
        requires { 0 < length octets.now }
        ensures bounds { IfOk result (λ n. (1 ≤ n) × (n ≤ length octets.now)) }
        ensures octets { WriteAppends
            (seen self.old).taken (seen self.new).taken result octets.now }
        ensures faults { (seen self.new).failures
            ≡ (seen self.old).failures + (if is_ok result then 0 else 1) };
}

/// Gives a sink a whole list, in as many calls as it needs, and stops at its first fault. Answers
/// how many octets it took, and whether it failed before it had taken all.
pub fn write_counted<S: Sink>(sink: &mut S, octets: &[u8]) -> (usize, Result<(), SinkFault>)
    // It took all, and did not fail.
    ensures all { OnOk result.1 (result.0 ≡ length octets.now) }
    ensures whole { OnOk result.1 (HasTaken (S.seen sink.old) (S.seen sink.new) octets.now) }
    ensures no_fault { OnOk result.1 (HasNotFailed (S.seen sink.old) (S.seen sink.new)) }

    // Or it took less, from the front, and then failed once.
    ensures less { OnErr result.1 (result.0 < length octets.now) }
    ensures front { OnErr result.1 (HasTaken (S.seen sink.old) (S.seen sink.new)
        (take result.0 octets.now)) }
    ensures fault { OnErr result.1 (HasFailedOnce (S.seen sink.old) (S.seen sink.new)) }
{
    let mut taken = 0;
    while taken < octets.len() {
        match sink.write_some(&octets[taken..]) {
            Ok(count) => taken += count,
            Err(fault) => return (taken, Err(fault)),
        }
    }
    (taken, Ok(()))
}

/// Gives a sink a whole list, in as many calls as it needs, and stops at its first fault.
///
/// # Errors
///
/// `SinkFault` if the sink failed. It had taken a part of the list then, from the front.
pub fn write_all<S: Sink>(sink: &mut S, octets: &[u8]) -> Result<(), SinkFault>
    ensures ok { OnOk result (WroteAll (S.seen sink.old) (S.seen sink.new) octets.now) }
    ensures err { OnErr result (WrotePrefix (S.seen sink.old) (S.seen sink.new) octets.now) }
{
    let (_, outcome) = write_counted(sink, octets);
    outcome
}
