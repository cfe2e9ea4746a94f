//! How what a replica knows is read.

ghost use Rattle.std.specs.Prelude.{◌≡◌, ℕ, false, true, List, [], Option, Some};
ghost use Rattle.std.specs.Prelude.{IfErr, IfOk, IfSome, OnOk};
ghost use Rattle.nm_book.specs.Book.{BookValue};
ghost use Rattle.nm_known.specs.declared.taking.Expected.{Expected as ExpectedValue};
ghost use Rattle.nm_known.specs.Known.{ExplainsText, KnowsNothing, TellsOnly, known_octets};
ghost use Rattle.nm_known.specs.Reading.{CutsOff, HoldsPart, IsReadTo};

use crate::known_fault::{KnownCause, KnownFault, frame_fault, read_fault};
use crate::taking::{Expected, take_all};
use nm_book::Book;
use nm_frames::{Frame, Reader};
use std::alloc::Global;
use std::io::BufRead;

/// Reads the next piece of a file, and puts the frames that are whole now at the end of a list,
/// which comes empty. Whether there was one.
fn read_piece<B: BufRead>(
    alloc: Global,
    file: &mut B,
    reader: &mut Reader,
    frames: &mut Vec<Frame>,
) -> Result<bool, KnownFault>
    requires none { frames.old.items ≡ [] }
    requires holds { HoldsPart reader.old }
    ensures cut { IfOk result (λ more. more ≡ true → CutsOff (B.remaining file.old)
        (B.remaining file.new) reader.old reader.new frames.new.items) }
    ensures end { IfOk result (λ more. more ≡ false → (reader.new ≡ reader.old)
        × IfSome (B.remaining file.old) (λ left. left ≡ [])) }
    ensures why { (text : Option (List ℕ)) (b : BookValue) (expected : ExpectedValue)
        → IsReadTo text b expected reader.old (B.remaining file.old)
        → IfErr result (ExplainsText b text) }
{
    let count = match file.fill_buf() {
        Err(error) => return Err(read_fault(&error)),
        Ok(piece) => {
            if piece.is_empty() {
                return Ok(false);
            }
            match reader.feed(alloc, piece, frames) {
                Ok(()) => piece.len(),
                Err(fault) => return Err(frame_fault(fault)),
            }
        }
    };
    file.consume(count);
    Ok(true)
}

/// Whether a file ends well here.
fn check_end(reader: &Reader, expected: Expected) -> Result<(), KnownFault>
    requires { HoldsPart reader.now }
    ensures whole { (text : Option (List ℕ)) (b : BookValue)
        → IsReadTo text b expected reader.now (Some [])
        → OnOk result (IfSome text (λ text. text ≡ known_octets b)) }
    ensures only { (text : Option (List ℕ)) (b : BookValue)
        → IsReadTo text b expected reader.now (Some []) → OnOk result (IfSome text (TellsOnly b)) }
    ensures why { (text : Option (List ℕ)) (b : BookValue)
        → IsReadTo text b expected reader.now (Some [])
        → IfErr result (ExplainsText b text) }
{
    match expected {
        Expected::Hello | Expected::Channel(_) => Err(KnownFault::Refused(KnownCause::Form)),
        Expected::End if !reader.is_empty() => Err(KnownFault::Refused(KnownCause::Form)),
        Expected::End => Ok(()),
    }
}

/// Reads what a replica knows from its file, as `write_known` wrote it, into a book that knows
/// nothing yet. Then the book knows just what is in the file, and nothing else of it has changed.
///
/// # Errors
///
/// `Topology` if the file begins with the Hello of another topology. `Form` if no book of this
/// replica has such a file: it is cut short or goes on after its end, say, or it is that of another
/// replica. `Failed` if a read failed, `Memory` if memory was refused. Each time the book knows a
/// part of the file, from its front, and may be dropped.
pub fn read_known<B: BufRead>(alloc: Global, book: &mut Book, reader: B) -> Result<(), KnownFault>
where
    B: Drop,
    requires { KnowsNothing book.old }
    ensures read { OnOk result
        (IfSome (B.remaining reader) (λ text. text ≡ known_octets book.new)) }
    ensures only { OnOk result (IfSome (B.remaining reader) (TellsOnly book.new)) }
    ensures same { book.new ≡ record book.old { knows = book.new.knows } }
    ensures why { IfErr result (ExplainsText book.old (B.remaining reader)) }
{
    let mut file = reader;
    let mut pending = Reader::new(alloc);
    let mut expected = Expected::Hello;
    for _ in 0..u64::MAX {
        let mut frames = Vec::new(alloc);
        if !read_piece(alloc, &mut file, &mut pending, &mut frames)? {
            return check_end(&pending, expected);
        }
        expected = take_all(book, expected, frames)?;
    }
    Err(KnownFault::Refused(KnownCause::Failed))
}
