//! What is said while a run goes on: a line on a terminal that shows how far it is, and whom a node
//! has met.

use crate::meetings::Meetings;
use nm_base::push_text;
use nm_progress::{Progress, push_line};
use std::alloc::AllocError;
use std::io::Write;
use std::sync::{Condvar, Mutex, Wait};
use std::time::{Clock, Duration};

/// How many milliseconds a line stays.
const MILLISECONDS_A_LINE: u64 = 1_000;

/// Goes to the first column.
const RETURN: &[u8] = b"\r";

/// Wipes the line from here on (ECMA-48, EL).
const WIPE: &[u8] = b"\r\x1b[K";

/// Whether what is watched is over.
#[derive(Drop)]
pub struct Over {
    is_over: Mutex<bool>,
    told: Condvar,
}

impl Over {
    /// It has not begun.
    pub fn new() -> Self {
        Over {
            is_over: Mutex::new(false),
            told: Condvar::new(),
        }
    }

    /// It is over.
    pub fn tell<R: Wait>(&self, rt: &R) {
        *self.is_over.lock(rt) = true;
        self.told.notify_one();
    }

    /// Waits until it is over, or so many milliseconds have passed: whether it is over.
    pub fn wait<R: Wait + Clock>(&self, rt: &R, milliseconds: u64) -> bool {
        let limit = Duration::from_millis(milliseconds);
        let guard = self.is_over.lock(rt);
        let (_guard, waited) = self
            .told
            .wait_timeout_while(rt, guard, limit, |is_over| !*is_over);
        !waited.timed_out()
    }
}

/// The line of a run that was begun so many milliseconds ago.
fn line_of(
    progress: &Progress,
    milliseconds: u64,
    meetings: &mut Meetings<'_>,
) -> Result<Vec<u8>, AllocError> {
    let mut text = Vec::new(meetings.alloc());
    push_text(&mut text, WIPE)?;
    push_line(&mut text, &progress.look(), milliseconds)?;
    if let Some(awaited) = meetings.awaited(progress)? {
        push_text(&mut text, awaited.as_bytes())?;
    }
    push_text(&mut text, RETURN)?;
    Ok(text)
}

/// Says what is new of a node's peers, in the place of the line, if there is one. Errors of the
/// output are ignored.
pub fn say_news<W: Write>(
    meetings: &mut Meetings<'_>,
    progress: &Progress,
    has_line: bool,
    errors: &mut W,
) {
    if let Ok(Some(text)) = meetings.news(progress) {
        if has_line {
            let _ = errors.write_all(WIPE);
        }
        let _ = errors.write_all(text.as_bytes());
    }
}

/// Once a second says what is new of a node's peers, and renews the line, which it wipes when the
/// run is over. Errors of the output are ignored.
pub fn watch<R: Wait + Clock, W: Write>(
    rt: &R,
    progress: &Progress,
    over: &Over,
    meetings: &mut Meetings<'_>,
    has_line: bool,
    errors: &mut W,
) {
    let mut milliseconds = 0u64;
    for _ in 0..u64::MAX {
        if over.wait(rt, MILLISECONDS_A_LINE) {
            break;
        }
        milliseconds = milliseconds.saturating_add(MILLISECONDS_A_LINE);
        say_news(meetings, progress, has_line, errors);
        if has_line && progress.look().stop > 0 {
            if let Ok(text) = line_of(progress, milliseconds, meetings) {
                let _ = errors.write_all(text.as_slice());
            }
        }
    }
    if has_line {
        let _ = errors.write_all(WIPE);
    }
}
