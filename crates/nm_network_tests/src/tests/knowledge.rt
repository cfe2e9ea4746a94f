//! `nm_knowledge`: what two know of one channel is merged or refused, and copies stay as they are.

use crate::tests::forward::packet_of;
use crate::tests::same::holds;
use nm_base::Time;
use nm_knowledge::{Accepted, Know, KnowFault};
use std::process::Abort;

/// Messages as their times and their packets' octet, and a clock.
type Shown = (&'static [(u64, u8)], u64);

/// What two know of a channel, what their merge answers, and what the first knows then.
type Row = (Shown, Shown, Result<(), KnowFault>, Shown);

/// A channel with these messages, and then the clock.
fn know_of(rt: &(impl Abort + AllocGlobal), shown: Shown) -> Know {
    let (messages, clock) = shown;
    let mut know = Know::new(rt.alloc());
    for (number, (time, octet)) in messages.iter().enumerate() {
        let packet = packet_of(rt, &[*octet]);
        let told = know.accept_data(number as u64, Time::from_nanoseconds(*time), &packet);
        assert!(rt; told == Ok(Accepted::New), "message {number}");
    }
    let told = know.accept_null(messages.len() as u64, Time::from_nanoseconds(clock));
    holds(rt, "the clock", told.is_ok());
    know
}

/// Whether two know the same.
fn is_same(one: &Know, other: &Know) -> bool {
    for number in 0..one.len() as u64 {
        if one.message(number) != other.message(number) {
            return false;
        }
    }
    one.len() == other.len() && one.clock() == other.clock()
}

/// Merges answer so, and leave the other as it was.
fn merge(rt: &(impl Abort + AllocGlobal), rows: &[Row]) {
    for (number, (ours, theirs, answer, after)) in rows.iter().enumerate() {
        let mut know = know_of(rt, *ours);
        let other = know_of(rt, *theirs);
        let merged = know.merge(&other);
        assert!(rt; merged == *answer, "row {number}");
        assert!(rt; is_same(&know, &know_of(rt, *after)), "row {number}");
        assert!(rt; is_same(&other, &know_of(rt, *theirs)), "row {number}");
    }
}

const NONE: &[(u64, u8)] = &[];

const TWO: &[(u64, u8)] = &[(2, 0)];

const SIX: &[(u64, u8)] = &[(6, 0)];

const TWO_FIVE: &[(u64, u8)] = &[(2, 0), (5, 0)];

const TWO_TWELVE: &[(u64, u8)] = &[(2, 0), (12, 0)];

const OTHER_TWO_FIVE: &[(u64, u8)] = &[(2, 1), (5, 0)];

#[test]
fn merges(rt: HostRuntime) {
    let late = |clock| Err(KnowFault::Late { clock });
    let differs = Err(KnowFault::Differs { number: 0 });
    merge(
        &rt,
        &[
            ((TWO, 10), (TWO_FIVE, 5), late(10), (TWO, 10)),
            ((TWO_FIVE, 5), (TWO, 10), late(10), (TWO_FIVE, 5)),
            ((TWO, 10), (TWO_TWELVE, 12), Ok(()), (TWO_TWELVE, 12)),
            ((TWO_TWELVE, 12), (TWO, 10), Ok(()), (TWO_TWELVE, 12)),
            ((NONE, 7), (SIX, 6), late(7), (NONE, 7)),
            ((SIX, 6), (NONE, 7), late(7), (SIX, 6)),
            ((SIX, 6), (NONE, 6), Ok(()), (SIX, 6)),
            ((NONE, 3), (NONE, 9), Ok(()), (NONE, 9)),
            ((NONE, 9), (NONE, 3), Ok(()), (NONE, 9)),
            ((TWO, 10), (OTHER_TWO_FIVE, 5), differs, (TWO, 10)),
        ],
    )
}

/// A copy of so many messages is equal, stays as it was when the original gets one more, and is the
/// original once both are merged.
fn copy_and_merge(rt: &(impl Abort + AllocGlobal), count: u64) {
    let packet = packet_of(rt, &[3]);
    let mut know = Know::new(rt.alloc());
    let mut was = Know::new(rt.alloc());
    for number in 0..count {
        let time = Time::from_nanoseconds(number);
        holds(rt, "new", know.accept_data(number, time, &packet).is_ok());
        holds(rt, "new", was.accept_data(number, time, &packet).is_ok());
    }
    let mut copy = know.copy(rt.alloc()).expect(rt, "there is memory");
    holds(rt, "a copy", is_same(&copy, &know));
    let told = know.accept_data(count, Time::from_nanoseconds(count), &packet);
    holds(rt, "one more", told == Ok(Accepted::New));
    holds(rt, "the copy then", is_same(&copy, &was));
    holds(rt, "no more is merged", know.merge(&copy) == Ok(()));
    holds(rt, "it has one more", know.len() as u64 > count);
    holds(rt, "one more is merged", copy.merge(&know) == Ok(()));
    holds(rt, "the original", is_same(&copy, &know));
}

/// Messages are held 256 in a block.
#[test]
fn copies_at_the_edges_of_blocks(rt: HostRuntime) {
    for count in [0, 255, 256, 257, 513] {
        copy_and_merge(&rt, count);
    }
}
