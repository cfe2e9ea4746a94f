//! The steps that the tokens of a line name.

ghost use Rattle.std.specs.Prelude.{◌≡◌};
ghost use Rattle.std.specs.Str.{bytes_eq};
ghost use Rattle.nm_script.specs.Tokens.{step_said, step_of_four, step_of_three, step_of_two};
ghost use Rattle.nm_script.specs.Tokens.{to_u8, to_u32};

use nm_base::{ChanNo, PartNo};
use nm_rounds::WorldStep;

/// The number as one of 32 bits. A number past them names nothing that is there, as the greatest
/// does not.
fn to_u32(number: u64) -> u32
    ensures { result ≡ to_u32 number }
{
    number.min(u32::MAX as u64) as u32
}

/// The same with 8 bits.
fn to_u8(number: u64) -> u8
    ensures { result ≡ to_u8 number }
{
    number.min(u8::MAX as u64) as u8
}

/// Whether a word is this one.
fn is(word: &[u8], name: &str) -> bool
    ensures { result ≡ bytes_eq word.now name.now }
{
    word == name.as_bytes()
}

/// The step of a word and two numbers.
fn step_of_two(word: &[u8], first: u64, second: u64) -> Option<WorldStep>
    ensures { result ≡ step_of_two word.now first second }
{
    let replica = to_u8(second);
    if is(word, "deliver") {
        return Some(WorldStep::Deliver {
            frame: first,
            replica,
        });
    }
    let partition = PartNo::new(to_u32(first));
    if is(word, "merge") {
        return Some(WorldStep::Merge { partition, replica });
    }
    if is(word, "restart") {
        return Some(WorldStep::Restart { partition, replica });
    }
    None
}

/// The step of a word and three numbers.
fn step_of_three(word: &[u8], partition: u64, replica: u64, third: u64) -> Option<WorldStep>
    ensures { result ≡ step_of_three word.now partition replica third }
{
    let partition = PartNo::new(to_u32(partition));
    let replica = to_u8(replica);
    if is(word, "run") {
        return Some(WorldStep::Run {
            partition,
            replica,
            limit: third,
        });
    }
    let channel = ChanNo::new(to_u32(third));
    if is(word, "null") {
        return Some(WorldStep::Null {
            partition,
            replica,
            channel,
        });
    }
    if is(word, "oldnull") {
        return Some(WorldStep::OldNull {
            partition,
            replica,
            channel,
        });
    }
    None
}

/// The step of a word and four numbers.
fn step_of_four(
    word: &[u8],
    partition: u64,
    replica: u64,
    channel: u64,
    number: u64,
) -> Option<WorldStep>
    ensures { result ≡ step_of_four word.now partition replica channel number }
{
    let partition = PartNo::new(to_u32(partition));
    let replica = to_u8(replica);
    let channel = ChanNo::new(to_u32(channel));
    if is(word, "data") {
        return Some(WorldStep::Data {
            partition,
            replica,
            channel,
            number,
        });
    }
    if is(word, "resend") {
        return Some(WorldStep::Resend {
            partition,
            replica,
            channel,
            number,
        });
    }
    None
}

/// The step of a word and its numbers.
pub(crate) fn step_of(word: &[u8], numbers: &[u64]) -> Option<WorldStep>
    ensures { result ≡ step_said word.now numbers.now }
{
    match numbers {
        [a, b] => step_of_two(word, *a, *b),
        [a, b, c] => step_of_three(word, *a, *b, *c),
        [a, b, c, d] => step_of_four(word, *a, *b, *c, *d),
        _ => None,
    }
}
