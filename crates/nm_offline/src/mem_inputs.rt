//! Inputs in memory.

ghost use Rattle.std.specs.Prelude.{◌≡◌, find, option_map, position};
ghost use Rattle.std.specs.Str.{bytes_eq};

use crate::inputs::Inputs;
use std::io::{self, ErrorKind, Read};

/// Standard input, and files with a name and octets each. A name that is no file's cannot be
/// opened.
#[derive(Clone, Copy)]
pub struct MemInputs<'a, S> {
    pub standard: S,
    pub files: &'a [(&'a str, &'a [u8])],
}

/// The index of the file of a name.
fn place_of(files: &[(&str, &[u8])], name: &str) -> Option<usize>
    ensures { result ≡ position (λ f. bytes_eq f.0.now name.now) files.now }
{
    files.iter().position(|file| file.0 == name)
}

impl<'a, S: Read + Drop + Copy> Inputs for MemInputs<'a, S> {
    type Standard = S;

    type File = &'a [u8];

    ghost seen = { λ m. record {
      standard = S.remaining m.standard;
      file = λ name. option_map (λ f. f.1.now) (find (λ f. bytes_eq f.0.now name) m.files.now);
    } };

    fn standard(&self) -> S {
        self.standard
    }

    fn open(&self, name: &str) -> io::Result<&'a [u8]> {
        match place_of(self.files, name) {
            Some(number) => Ok(self.files[number].1),
            None => Err(io::Error::from(ErrorKind::NotFound)),
        }
    }
}
