//! Laws of ports.

ghost use Rattle.nm_model.specs.PortLaws.{StartInTurn};

/// A queue is first in, first out, and loses nothing: over any list of offers and completions, the
/// packets that were not dropped are, in the order of their offers, those whose transmission
/// started, and then those that wait. Each drop is counted.
pub fn packets_start_in_turn<P>()
    ensures { StartInTurn P }
{}
