//! The octets that a link has for its wire.

ghost use Rattle.std.specs.Prelude.{◌≡◌, ◌≤◌, ◌==◌, ◌++◌, [], None, OnErr, OnOk, Some, drop, length};
ghost use Rattle.std.specs.Option.{option_map};
ghost use Rattle.nm_engine.specs.Given.{given_with};
ghost use Rattle.nm_frames.specs.Frame.{IsFrame, frame_octets};

use crate::given::Given;
use nm_frames::{Frame, write_frame};
use std::alloc::{AllocError, Global};
use std::marker::Model;

/// The octets that a wire has not taken. Written octets are skipped, and removed once they are as
/// many as those that wait, so that not every write moves octets.
#[derive(Drop)]
pub(crate) struct OutBuffer {
    octets: Vec<u8>,
    /// How many octets at the front are written.
    gone: usize,
    /// The frames that were put here, if they are counted.
    given: Option<Given>,
}

impl Model for OutBuffer {
    ghost use Rattle.std.specs.Option.{option_map};
    ghost use Rattle.std.specs.Prelude.{◌≤◌, drop, vec_len};
    ghost use Rattle.nm_engine.specs.Out.{Waiting};

    ghost Value = { Waiting };

    ghost view = { λ o. record {
      items = drop o.gone o.octets.items;
      given = option_map (λ g. g.counts) o.given;
    } };

    ghost invariant = { λ o. o.gone ≤ vec_len o.octets };
}

impl OutBuffer {
    /// A buffer without octets.
    pub(crate) fn new(alloc: Global) -> Self
        ensures { (result.items ≡ []) × (result.given ≡ None) }
    {
        OutBuffer {
            octets: Vec::new(alloc),
            gone: 0,
            given: None,
        }
    }

    /// From now on the frames that are put here are counted.
    pub(crate) fn count_given(&mut self, alloc: Global)
        ensures { self.new ≡ record self.old {
          given = Some (record { messages = 0; nulls = 0 });
        } }
    {
        self.given = Some(Given::new(alloc));
    }

    /// The frames that were put here, if they are counted.
    pub(crate) fn given(&self) -> Option<&Given>
        ensures { option_map (λ g. g.now.counts) result ≡ self.now.given }
    {
        self.given.as_ref()
    }

    /// The same, and ends the count.
    pub(crate) fn take_given(&mut self) -> Option<Given>
        ensures given { option_map (λ g. g.counts) result ≡ self.old.given }
        ensures left { self.new ≡ record self.old { given = None } }
    {
        self.given.take()
    }

    /// How many octets wait.
    pub(crate) fn len(&self) -> usize
        ensures { result ≡ length self.now.items }
    {
        self.octets.len() - self.gone
    }

    /// Whether no octet waits.
    pub(crate) fn is_empty(&self) -> bool
        ensures { result ≡ (length self.now.items == 0) }
    {
        self.len() == 0
    }

    /// The octets that wait.
    pub(crate) fn as_slice(&self) -> &[u8]
        ensures { result.now ≡ self.now.items }
    {
        &self.octets[self.gone..]
    }

    /// Puts a frame behind them.
    ///
    /// # Errors
    ///
    /// `AllocError` if memory was refused. The same octets wait then.
    pub(crate) fn put(&mut self, frame: &Frame) -> Result<(), AllocError>
        ensures ok { OnOk result (self.new.items ≡ self.old.items ++ frame_octets frame.now) }
        ensures fits { IsFrame frame.now }
        ensures err { OnErr result (self.new.items ≡ self.old.items) }
        ensures counted { OnOk result (self.new.given
            ≡ option_map (λ counts. given_with counts frame.now) self.old.given) }
    {
        write_frame(frame, &mut self.octets)?;
        if let Some(given) = &mut self.given {
            given.note(frame);
        }
        Ok(())
    }

    /// So many octets at the front were written.
    pub(crate) fn advance(&mut self, count: usize)
        requires { count ≤ length self.old.items }
        ensures { self.new ≡ record self.old { items = drop count self.old.items } }
    {
        self.gone += count;
        if self.gone >= self.octets.len() - self.gone {
            self.octets.drain(..self.gone);
            self.gone = 0;
        }
    }
}
