//! How the threads of a run are woken.

ghost use Rattle.std.specs.Prelude.{◌≡◌, IfOk, None, false};

use mio::{Poll, Token, Waker};
use nm_shared::{Lending, TakenNews};
use std::io;
use std::net::Net;
use std::snapshot::Snapshot;
use std::sync::OnceToken;

/// The token of wakers. Connections have their keys, and the listener the greatest token.
const WOKEN: Token = Token(usize::MAX - 1);

/// A waker, and of which poll it is: only `PollWaker::of` makes it.
#[derive(Drop)]
pub(crate) struct PollWaker {
    waker: Waker,
    poll: Snapshot<Poll>,
}

impl PollWaker {
    /// A waker of this poll.
    pub(crate) fn of(poll: &Poll) -> io::Result<Self>
        ensures { IfOk result (λ waker. waker.poll.value ≡ poll.now) }
    {
        Ok(PollWaker {
            waker: Waker::new(poll.registry(), WOKEN)?,
            poll: Snapshot::of(poll),
        })
    }

    /// The waker, which threads share.
    pub(crate) fn into_waker(self) -> Waker
        ensures { result ≡ self.waker }
    {
        self.waker
    }
}

/// A poll, and its waker.
pub(crate) fn woken_poll<R: Net>(net: &R) -> io::Result<(Poll, PollWaker)>
    ensures { IfOk result (λ made. made.1.poll.value ≡ made.0) }
{
    let poll = Poll::new(net)?;
    let waker = PollWaker::of(&poll)?;
    Ok((poll, waker))
}

/// What wakes the dispatcher of a run.
#[derive(Drop)]
pub(crate) struct DispatcherWaker {
    waker: Waker,
}

/// The dispatcher was woken: only `DispatcherWaker::wake` makes it.
#[derive(Clone, Copy)]
struct DispatcherWoken(());

/// The dispatcher was told that there is something new for it to do: only
/// `DispatcherWaker::pass_news` makes it.
#[derive(Clone, Copy)]
struct NewsPassed {
    woken: DispatcherWoken,
}

/// It was looked whether there is something new for the dispatcher, and if so it was told: only
/// `DispatcherWaker::look_for_news` makes it.
#[derive(Clone, Copy)]
pub(crate) struct NewsLook {
    passed: Option<NewsPassed>,
}

/// The dispatcher was told of this end of a replica: only `DispatcherWaker::pass_end` makes it.
#[derive(Drop)]
pub(crate) struct EndPassed<'a> {
    noted: OnceToken<'a, ()>,
    woken: DispatcherWoken,
}

impl DispatcherWaker {
    /// The dispatcher waits on the poll of this waker.
    pub(crate) fn new(waker: PollWaker) -> Self
        ensures { result.waker ≡ waker.waker }
    {
        DispatcherWaker {
            waker: waker.into_waker(),
        }
    }

    fn wake(&self) -> DispatcherWoken {
        self.woken(self.waker.wake())
    }

    /// The dispatcher was woken, whatever its waker answered: if that failed, it looks at all books
    /// at the end of its period.
    fn woken(&self, _: io::Result<()>) -> DispatcherWoken {
        DispatcherWoken(())
    }

    /// Wakes the dispatcher, since there is something new for it to do.
    fn pass_news(&self, news: TakenNews) -> NewsPassed {
        news.pass_on();
        NewsPassed { woken: self.wake() }
    }

    /// Wakes the dispatcher if there is something new for it to do. The book was lent before this
    /// call, so the dispatcher will see it.
    pub(crate) fn look_for_news(&self, lending: &Lending) -> NewsLook
        ensures { lending.now ≡ false → result.passed ≡ None }
    {
        NewsLook {
            passed: match lending.take_news() {
                Some(news) => Some(self.pass_news(news)),
                None => None,
            },
        }
    }

    /// Wakes the dispatcher, since a replica has ended. That was noted before, so it will see it.
    pub(crate) fn pass_end<'a>(&self, noted: OnceToken<'a, ()>) -> EndPassed<'a>
        ensures { result.noted.of ≡ noted.entry.of }
    {
        EndPassed {
            noted,
            woken: self.wake(),
        }
    }
}
