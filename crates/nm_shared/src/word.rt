//! One word of a clock board: its owner raises it, and others look at it.

ghost use Rattle.std.specs.Prelude.{◌≡◌, ◌≢◌, ℕ, ◌≤◌, [], ◌∷◌, IfOk};
ghost use Rattle.atomic_table.specs.Seated.{TableId};

use atomic_table::{Join, Play, Split, Table, TableRule};
use std::alloc::{AllocError, Global};
use std::collections::LinkedList;

// What a seat knows: the value that it owns, if it owns the word, the value that it found last, and
// how often it looked. It exists in clauses alone.
pub struct View {
    pub owned: LinkedList<u64>,
    pub found: u64,
    pub looks: u64,
}

/// The rule of a word: it is the value of the view that owns it, at most one view owns it, and no
/// view found more.
pub struct Clock;

impl TableRule<u64, View, ()> for Clock {
    ghost use Rattle.nm_shared.specs.Clock.{IsKept, owner};

    ghost holds = { λ _ s. IsKept s.words s.views };

    ghost first = { λ _. owner };
}

/// The owner raises the word, by one fetch_max: its value becomes the greater.
pub struct Raise;

impl Play<u64, View> for Raise {
    ghost use Rattle.nm_shared.specs.Clock.{raised_view};

    ghost then = { λ s before n after. (after.0 ≡ raised_view s.first before.0)
        × (after.1 ≡ before.1) };
}

/// A seat looks, by one load: its last found value becomes the word's, and its looks rise by one.
pub struct Look;

impl Play<u64, View> for Look {
    ghost use Rattle.nm_shared.specs.Clock.{looked, Fits};

    ghost then = { λ s before n after. (after.0 ≡ looked n before.0) × Fits n before.0
        × (after.1 ≡ before.1) };
}

/// A new seat is split off. It found and owns nothing.
pub struct Newcomer;

impl Split<View> for Newcomer {
    ghost use Rattle.nm_shared.specs.Clock.{looker};

    ghost left = { λ v. v };

    ghost right = { λ v. looker };
}

/// Two seats become one: it owns the word if either did, found the greater value, and looked as
/// often as both. The other one is spent.
pub struct Together;

impl Join<View> for Together {
    ghost use Rattle.nm_shared.specs.Clock.{looker, joined_view};

    ghost both = { joined_view };

    ghost spent = { looker };
}

/// A seat at one word.
#[derive(Drop)]
pub struct WordSeat {
    pub seat: atomic_table::Seat<u64, View>,
    pub ghost bare: { seat.me.1 ≡ [] },
}

/// A word, in a table of its own.
#[derive(Drop)]
pub struct Word {
    pub table: Table<u64, View, (), Clock, Global>,
    pub ghost one: { (table.shared.table_id.words ≡ 1) × (table.shared.table_id.slots ≡ 0) },
}

impl Word {
    ghost use Rattle.nm_shared.specs.Clock.{owner, looker, raised_view, looked, joined_view, Fits};

    /// A word at 0, and the seat that owns it.
    pub(crate) fn new(alloc: Global) -> Result<(Word, WordSeat), AllocError>
        ensures { IfOk result (λ r. (r.1.seat.table_id ≡ r.0.table.shared.table_id)
            × (r.1.seat.me.0 ≡ owner)) }
    {
        let (table, seat) = Table::of_words(alloc, &[0], &())?;
        Ok((Word { table }, WordSeat { seat }))
    }

    /// Raises the word to this clock, by its owner.
    pub(crate) fn raise(&self, place: &mut WordSeat, clock: u64)
        requires word { place.old.seat.table_id ≡ self.now.table.shared.table_id }
        requires owns { place.old.seat.me.0.owned ≢ [] }
        ensures word { place.new.seat.table_id ≡ place.old.seat.table_id }
        ensures view { place.new.seat.me.0 ≡ raised_view clock place.old.seat.me.0 }
    {
        self.table
            .shared
            .fetch_max::<Raise>(&mut place.seat, 0, clock);
    }

    /// Looks at the word.
    pub(crate) fn look(&self, place: &mut WordSeat) -> u64
        requires { place.old.seat.table_id ≡ self.now.table.shared.table_id }
        ensures word { place.new.seat.table_id ≡ place.old.seat.table_id }
        ensures view { place.new.seat.me.0 ≡ looked result place.old.seat.me.0 }
        ensures found { Fits result place.old.seat.me.0 }
    {
        self.table.shared.load::<Look>(&mut place.seat, 0)
    }

    /// One more seat at the word. It has found nothing.
    pub(crate) fn split(&self, place: &mut WordSeat) -> WordSeat
        requires { place.old.seat.table_id ≡ self.now.table.shared.table_id }
        ensures same { (place.new.seat.table_id ≡ place.old.seat.table_id)
            × (place.new.seat.me.0 ≡ place.old.seat.me.0) }
        ensures other { (result.seat.table_id ≡ place.old.seat.table_id)
            × (result.seat.me.0 ≡ looker) }
    {
        let seat = self.table.shared.split_seat::<Newcomer>(&mut place.seat);
        WordSeat { seat }
    }

    /// Takes another seat in.
    pub(crate) fn join(&self, place: &mut WordSeat, other: WordSeat)
        requires place { place.old.seat.table_id ≡ self.now.table.shared.table_id }
        requires other { other.seat.table_id ≡ self.now.table.shared.table_id }
        ensures word { place.new.seat.table_id ≡ place.old.seat.table_id }
        ensures view { place.new.seat.me.0 ≡ joined_view place.old.seat.me.0 other.seat.me.0 }
    {
        let WordSeat { seat } = other;
        self.table
            .shared
            .join_seat::<Together>(&mut place.seat, seat);
    }

    /// The final word, by the seat that took in the others.
    pub(crate) fn close(self, place: WordSeat) -> u64
        requires { place.seat.table_id ≡ self.table.shared.table_id }
        ensures { Fits result place.seat.me.0 }
    {
        let Word { table } = self;
        let WordSeat { seat } = place;
        let closed = table.close_with(seat);
        let clock = closed.word(0);
        closed.free();
        clock
    }

    /// The final word, if no seat came back.
    pub(crate) fn close_alone(self) -> u64 {
        let Word { table } = self;
        let closed = table.close();
        let clock = closed.word(0);
        closed.free();
        clock
    }
}
