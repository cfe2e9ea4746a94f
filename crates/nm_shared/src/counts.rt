//! How additions to a shared book are counted: totals under its lock, and amounts in each pass.

ghost use Rattle.std.specs.Prelude.{◌≡◌, ℕ, ◌+◌, ◌^◌, ◌<◌, ◌≤◌, Bool, true};
ghost use Rattle.nm_shared.specs.Counted.{Rises};
ghost use Rattle.nm_shared.specs.Home.{Home};

/// Into how many parts the right to count is cut. Each pass has one of them.
pub const PARTS: u64 = 1 << 32;

/// The totals of a book. A `Share` has the amounts of a pass.
pub trait Counts: Drop + Send {
    type Share: Drop + Send;

    /// Which replica the book is, if the counts are exact.
    ghost home: { Home };

    /// Whether totals and amounts are tied, so that a whole share has the totals.
    ghost exact: { Bool };

    /// Whether the ledgers behind them are cut into `PARTS`.
    ghost cut: { Bool → Type 0 };

    ghost messages: { Self → ℕ };

    ghost events: { Self → ℕ };

    ghost parts: { Self.Share → ℕ };

    ghost messages_of: { Self.Share → ℕ };

    ghost events_of: { Self.Share → ℕ };

    /// Raises both the totals and the share's amounts.
    fn add(&mut self, share: &mut Self::Share, new_messages: u64, new_events: u64)
        // The share has a part, and the totals stay below 2^64.
        requires part { 0 < parts share.old }
        requires messages_fit { messages self.old + new_messages < 2 ^ 64 }
        requires events_fit { events self.old + new_events < 2 ^ 64 }

        // The totals rise by these amounts.
        ensures messages { messages self.new ≡ messages self.old + new_messages }
        ensures events { events self.new ≡ events self.old + new_events }

        // So do the share's, and it has as many parts as before.
        ensures messages_of { Rises exact (messages_of share.old) new_messages
            (messages_of share.new) }
        ensures events_of { Rises exact (events_of share.old) new_events (events_of share.new) }
        ensures parts { parts share.new ≡ parts share.old };

    /// Changes nothing, and shows how the share's amounts relate to the totals.
    fn audit(&mut self, share: &mut Self::Share)
        ensures same { (messages self.new ≡ messages self.old)
            × (events self.new ≡ events self.old) }
        ensures share { (messages_of share.new ≡ messages_of share.old)
            × (events_of share.new ≡ events_of share.old) × (parts share.new ≡ parts share.old) }
        ensures at_least { exact ≡ true → (messages_of share.old ≤ messages self.old)
            × (events_of share.old ≤ events self.old) }
        ensures whole { exact ≡ true → cut true → parts share.old ≡ 2 ^ 32
            → (messages_of share.old ≡ messages self.old)
            × (events_of share.old ≡ events self.old) };

    /// Cuts off one part, which has counted nothing.
    fn split(share: &mut Self::Share) -> Self::Share
        requires part { 0 < parts share.old }
        requires idle { (messages_of share.old ≡ 0) × (events_of share.old ≡ 0) }
        ensures given { (parts result ≡ 1) × (messages_of result ≡ 0) × (events_of result ≡ 0) }
        ensures left { (parts share.new + 1 ≡ parts share.old) × (messages_of share.new ≡ 0)
            × (events_of share.new ≡ 0) };

    /// Takes another share in.
    fn merge(share: &mut Self::Share, other: Self::Share)
        ensures parts { exact ≡ true → parts share.new ≡ parts share.old + parts other }
        ensures apart { exact ≡ true → cut true → parts share.new ≤ 2 ^ 32 }
        ensures messages_of { exact ≡ true
            → messages_of share.new ≡ messages_of share.old + messages_of other }
        ensures events_of { exact ≡ true
            → events_of share.new ≡ events_of share.old + events_of other };
}
