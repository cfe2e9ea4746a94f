//! Laws of knowledge of a channel: taking messages and null messages, and joining.

ghost use Rattle.nm_model.specs.KnowledgeLaws.{AcceptLaws, JoinFaultsAreRight, JoinLaws, UnderLaws};

/// Taking a message or a null message only adds to what is known, and keeps it in order. If the
/// message is true of the channel's history, what is known stays true of it; then only a gap is
/// refused.
pub fn accept_laws<P>()
    ensures { AcceptLaws P }
{}

/// Knowledge is under itself, and under whatever that which it is under is under.
pub fn under_laws<P>()
    ensures { UnderLaws P }
{}

/// The join of knowledge that is valid for one history is the least that both are under.
pub fn join_laws<P>()
    ensures { JoinLaws P }
{}

/// Two are joined exactly if they are compatible, that is, if both are under something; a fault
/// shows that they are not, by its number or clock. Of several channels the first with a fault is
/// named.
pub fn join_faults_are_right<P>()
    ensures { JoinFaultsAreRight P }
{}
