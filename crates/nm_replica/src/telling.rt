//! Raising the words of the board.

ghost use Rattle.std.specs.Prelude.{◌≡◌};
ghost use Rattle.nm_replica.specs.Seats.{AreKept, StandOnBoard, StandsOnBoard};
ghost use Rattle.nm_shared.specs.Board.{IsOwnerOf, owned_word};

use crate::seats::OwnSeats;
use nm_shared::acts::MakeNull;
use nm_shared::{ClockBoard, Counts, OwnerSeat, Pass, SharedBook};
use std::sync::Wait;

/// Raises a seat's word to the promise of its channel, as it is now.
fn tell<C: Counts, R: Wait>(
    rt: &R,
    book: &SharedBook<C>,
    pass: &mut Pass<C>,
    board: &ClockBoard,
    seat: &mut OwnerSeat,
)
    requires { IsOwnerOf board.now seat.old }
    ensures owner { IsOwnerOf board.now seat.new }
    ensures word { owned_word seat.new ≡ owned_word seat.old }
    ensures told { StandsOnBoard C.exact C.home seat.new }
{
    let channel = seat.channel();
    if let Some(null) = book.act(rt, pass, MakeNull { channel }) {
        board.raise(seat, &null);
    }
}

/// Raises each seat's word to the promise of its channel.
pub(crate) fn tell_all<C: Counts, R: Wait>(
    rt: &R,
    book: &SharedBook<C>,
    pass: &mut Pass<C>,
    own: &mut OwnSeats<'_>,
)
    ensures kept { AreKept own.old own.new }
    ensures told { StandOnBoard C.exact C.home own.new }
{
    for number in 0..own.seats.len() {
        tell(rt, book, pass, own.board, &mut own.seats[number]);
    }
}
