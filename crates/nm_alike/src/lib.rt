//! Whether replicas are the same in all that they answer, for crates of tests.
#![tactic(auto)]

ghost use Rattle.std.specs.Prelude.{◌≡◌, ◌↔◌, true};
ghost use Rattle.nm_alike.specs.Alike.{AgreeOn, AnswerAlike, known_on};

use nm_base::ChanNo;
use nm_book::Book;
use nm_knowledge::Know;

/// Whether two know the same of a channel.
pub fn are_equal(one: &Know, other: &Know) -> bool
    ensures { (result ≡ true) ↔ (one.now ≡ other.now) }
{
    for number in 0..one.len() as u64 {
        if one.message(number) != other.message(number) {
            return false;
        }
    }
    one.len() == other.len() && one.clock() == other.clock()
}

/// Whether two know the same of a channel, or it comes in at neither.
fn know_alike(one: &Book, other: &Book, channel: ChanNo) -> bool
    ensures { (result ≡ true) ↔ (known_on one.now channel ≡ known_on other.now channel) }
{
    match (one.know(channel), other.know(channel)) {
        (Some(one), Some(other)) => are_equal(one, other),
        (None, None) => true,
        _ => false,
    }
}

/// Whether two know the same of a channel, sent the same on it, and promise the same.
fn agree_on(one: &Book, other: &Book, channel: ChanNo) -> bool
    ensures { (result ≡ true) ↔ AgreeOn one.now other.now channel }
{
    if !know_alike(one, other, channel) {
        return false;
    }
    (
        one.sent(channel),
        one.promise(channel),
        one.old_promise(channel),
    ) == (
        other.sent(channel),
        other.promise(channel),
        other.old_promise(channel),
    )
}

/// Whether two are as far, have the same trace, and agree on each of so many channels.
pub fn are_alike(one: &Book, other: &Book, channels: u32) -> bool
    ensures { (result ≡ true) ↔ AnswerAlike one.now other.now channels }
{
    for number in 0..channels {
        if !agree_on(one, other, ChanNo::new(number)) {
            return false;
        }
    }
    (
        one.safe(),
        one.events(),
        one.done(),
        one.handed(),
        one.records(),
        one.trace(),
    ) == (
        other.safe(),
        other.events(),
        other.done(),
        other.handed(),
        other.records(),
        other.trace(),
    )
}
