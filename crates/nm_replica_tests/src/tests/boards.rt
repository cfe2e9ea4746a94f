//! The clock board.

use crate::tests::messages::null;
use crate::tests::sides::topology_of;
use nm_fixtures::SPLIT;
use nm_shared::ClockBoard;
use std::process::Abort;
use std::test::Fail;

/// A number is found.
fn is_found(rt: &impl Abort, found: u64, want: u64) {
    assert!(rt; found == want, "{found} and not {want}");
}

/// What is raised is found, the greater of two is kept, and other words stay at 0.
#[test]
fn what_is_raised_is_found(rt: HostRuntime) -> Result<(), Fail> {
    let topology = topology_of(&rt, rt.alloc(), SPLIT);
    let (board, mut owners, mut seats) = ClockBoard::new(rt.alloc(), &topology)?;
    assert!(rt; owners.len() == 4 && seats.len() == 64);
    let (Some(last), Some(mut owner), Some(mut seat)) = (owners.pop(), owners.pop(), seats.pop())
    else {
        return Err("seats".into());
    };
    board.raise(&mut owner, &null(1, 0, 5));
    is_found(&rt, board.look(&mut seat, 2), 5);
    board.raise(&mut owner, &null(1, 0, 3));
    is_found(&rt, board.look(&mut seat, 2), 5);
    is_found(&rt, board.look(&mut seat, 3), 0);
    owners.push(owner)?;
    owners.push(last)?;
    let words = board.close(owners, seats);
    assert!(rt; words.as_slice() == [0, 0, 5, 0].as_slice());
    Ok(())
}

/// A board closes without a seat, and without its owners, too: it gives what they raised.
#[test]
fn a_board_closes_without_a_seat(rt: HostRuntime) -> Result<(), Fail> {
    let alloc = rt.alloc();
    let topology = topology_of(&rt, alloc, SPLIT);
    let (board, owners, _) = ClockBoard::new(alloc, &topology)?;
    let words = board.close(owners, Vec::new(alloc));
    assert!(rt; words.as_slice() == [0, 0, 0, 0].as_slice());
    let (board, mut owners, _) = ClockBoard::new(alloc, &topology)?;
    assert!(rt; owners.len() == 4);
    let (Some(last), Some(mut owner)) = (owners.pop(), owners.pop()) else {
        return Err("owners".into());
    };
    board.raise(&mut owner, &null(1, 0, 5));
    let words = board.close(Vec::new(alloc), Vec::new(alloc));
    assert!(rt; words.as_slice() == [0, 0, 5, 0].as_slice());
    Ok(())
}
