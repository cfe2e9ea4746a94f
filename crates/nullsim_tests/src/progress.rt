//! The line that shows how far a run is.

use nm_base::{PartNo, Time};
use nm_progress::{Progress, push_line};
use std::process::Abort;
use std::test::Fail;

/// The line of a run with `stop` of 10 s, 2 s after it was begun.
fn says(rt: &(impl Abort + AllocGlobal), progress: &Progress, wanted: &str) -> Result<(), Fail> {
    let mut text = Vec::new(rt.alloc());
    push_line(&mut text, &progress.look(), 2_000)?;
    assert!(rt; text.as_slice() == wanted.as_bytes(), "{wanted}");
    Ok(())
}

#[test]
fn a_line_of_progress(rt: HostRuntime) -> Result<(), Fail> {
    let progress = Progress::new();
    says(&rt, &progress, "0% simulated, 0 packet-hops/s")?;
    progress.begin(Time::from_nanoseconds(10_000_000_000));
    says(&rt, &progress, "0% simulated, 0 packet-hops/s")?;
    progress.note(Time::from_nanoseconds(2_500_000_000), 4_000);
    says(
        &rt,
        &progress,
        "25% simulated, 1000 packet-hops/s, 6 s left",
    )?;
    progress.note_last(PartNo::new(3));
    progress.note(Time::from_nanoseconds(10_000_000_000), 8_001);
    says(
        &rt,
        &progress,
        "100% simulated, 2000 packet-hops/s, 0 s left, partition 3 last",
    )
}
