//! One write of a link.

ghost use Rattle.std.specs.Prelude.{◌≡◌};
ghost use Rattle.nm_engine.specs.Writing.{Writes};

use crate::answer::Cause;
use crate::out::OutBuffer;
use nm_base::Wire;
use nm_base::wire::Written;

/// Writes once from the front of the buffer. Answers how many octets the wire took.
pub(crate) fn write_out<W: Wire>(wire: &mut W, out: &mut OutBuffer) -> Result<usize, Cause>
    ensures writes { Writes (W.seen wire.old) (W.seen wire.new) out.old.items out.new.items result }
    ensures keeps { ((W.seen wire.new).given ≡ (W.seen wire.old).given)
        × ((W.seen wire.new).ends ≡ (W.seen wire.old).ends) }
{
    if out.is_empty() {
        return Ok(0);
    }
    match wire.write_some(out.as_slice()) {
        Written::Took(count) => {
            out.advance(count);
            Ok(count)
        }
        Written::Later => Ok(0),
        Written::Fault => Err(Cause::Fault),
    }
}
