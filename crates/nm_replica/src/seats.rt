//! The seats of one replica on a board.

ghost use Rattle.std.specs.Prelude.{◌≡◌, ◌+◌, All, IfOk, map, not};
ghost use Rattle.std.specs.List.{filter};
ghost use Rattle.nm_replica.specs.Words.{is_word_of};
ghost use Rattle.nm_shared.specs.Board.{AreFirstOwners, IsOwnerOf, owned_word};

use nm_base::PartNo;
use nm_book::channels::goes_out;
use nm_frames::ReplicaName;
use nm_shared::{ClockBoard, Counts, OwnerSeat, SharedBook};
use nm_topology::Topology;
use std::alloc::{AllocError, Global};

/// Whether the seat is of a channel that goes out from the partition, and of this replica.
pub fn is_own(topology: &Topology, partition: PartNo, replica: u8, seat: &OwnerSeat) -> bool
    ensures { result ≡ is_word_of topology.now partition replica (owned_word seat.now) }
{
    let channel = seat.channel();
    channel.index() < topology.receivers().len()
        && goes_out(topology, partition, channel)
        && seat.replica() == replica
}

/// Seats that own words of a board, with the board.
#[derive(Drop)]
pub struct OwnSeats<'a> {
    pub(crate) board: &'a ClockBoard,
    pub(crate) seats: Vec<OwnerSeat>,
    ghost owners: { All (IsOwnerOf board.now) seats.items },
}

/// Seats of one board: those of one replica, and the others.
#[derive(Drop)]
pub struct Dealt<'a> {
    pub own: OwnSeats<'a>,
    pub others: OwnSeats<'a>,
}

impl<'a> OwnSeats<'a> {
    ghost use Rattle.nm_replica.specs.Seats.{board_of, words_of};

    /// All seats that own a word of a new board.
    #[tactic(auto, using(crate::proofs::Owners::first_are_owners))]
    pub fn all(board: &'a ClockBoard, seats: Vec<OwnerSeat>) -> Self
        requires { AreFirstOwners board.now seats.items }
        ensures board { board_of result ≡ board.now }
        ensures words { words_of result ≡ map owned_word seats.items }
    {
        OwnSeats { board, seats }
    }

    /// Deals a replica the seats of its outgoing channels. The others stay, each in its order.
    ///
    /// # Errors
    ///
    /// If memory was refused.
    pub fn deal(
        self,
        alloc: Global,
        topology: &Topology,
        name: ReplicaName,
    ) -> Result<Dealt<'a>, AllocError>
        ensures board { IfOk result (λ d. (board_of d.own ≡ board_of self.entry)
            × (board_of d.others ≡ board_of self.entry)) }
        ensures own { IfOk result (λ d. words_of d.own
            ≡ filter (is_word_of topology.now name.partition name.replica)
            (words_of self.entry)) }
        ensures others { IfOk result (λ d. words_of d.others
            ≡ filter (λ w. not (is_word_of topology.now name.partition name.replica w))
            (words_of self.entry)) }
    {
        let ReplicaName { partition, replica } = name;
        let OwnSeats { board, seats } = self;
        let mut own = Vec::new(alloc);
        let mut others = Vec::new(alloc);
        for seat in seats {
            if is_own(topology, partition, replica, &seat) {
                own.push(seat)?;
            } else {
                others.push(seat)?;
            }
        }
        Ok(Dealt {
            own: OwnSeats { board, seats: own },
            others: OwnSeats {
                board,
                seats: others,
            },
        })
    }

    /// Of all seats that own a word of a new board, those of the outgoing channels of one replica.
    /// The others are dropped.
    ///
    /// # Errors
    ///
    /// If memory was refused.
    pub fn of_replica(
        alloc: Global,
        topology: &Topology,
        board: &'a ClockBoard,
        partition: PartNo,
        replica: u8,
        seats: Vec<OwnerSeat>,
    ) -> Result<Self, AllocError>
        requires { AreFirstOwners board.now seats.items }
        ensures board { IfOk result (λ own. board_of own ≡ board.now) }
        ensures words { IfOk result (λ own. words_of own
            ≡ filter (is_word_of topology.now partition replica)
            (map owned_word seats.items)) }
    {
        let name = ReplicaName { partition, replica };
        let Dealt { own, others: _ } = OwnSeats::all(board, seats).deal(alloc, topology, name)?;
        Ok(own)
    }

    /// The same of the replica whose book this is.
    ///
    /// # Errors
    ///
    /// If memory was refused.
    pub fn of_book<C: Counts>(
        alloc: Global,
        topology: &Topology,
        board: &'a ClockBoard,
        book: &SharedBook<C>,
        seats: Vec<OwnerSeat>,
    ) -> Result<Self, AllocError>
        requires { AreFirstOwners board.now seats.items }
        ensures board { IfOk result (λ own. board_of own ≡ board.now) }
        ensures words { IfOk result (λ own. words_of own
            ≡ filter (is_word_of topology.now book.now.partition book.now.replica)
            (map owned_word seats.items)) }
    {
        OwnSeats::of_replica(alloc, topology, board, book.partition, book.replica, seats)
    }
}
