//! Where inputs come from.

ghost use Rattle.std.specs.Prelude.{◌≡◌, IfErr, IfOk, None};
ghost use Rattle.std.specs.IoError.{error_kind};
ghost use Rattle.std.specs.declared.io.ErrorKind.TheVariants.{NotFound};
ghost use Rattle.nm_offline.specs.Input.{InputTexts};

use std::io;
use std::io::Read;

/// Where inputs come from: standard input, and files by their names.
pub trait Inputs {
    /// Standard input, which is read to its end.
    type Standard: Read + Drop;
    /// A file, which is read to its end.
    type File: Read + Drop;

    // The texts of standard input and of the file of each name, if they are known.
    ghost seen: { Self → InputTexts };

    /// Standard input.
    fn standard(&self) -> Self::Standard
        ensures { Self.Standard.remaining result ≡ (seen self.now).standard };

    /// Opens the file of a name.
    ///
    /// # Errors
    ///
    /// The file could not be opened, or memory was refused. The error `NotFound`, of a file that is
    /// not there, says nothing more.
    fn open(&self, name: &str) -> io::Result<Self::File>
        ensures there { IfOk result
            (λ f. Self.File.remaining f ≡ (seen self.now).file name.now) }
        ensures missing { IfErr result
            (λ e. error_kind e ≡ NotFound → (seen self.now).file name.now ≡ None) };
}
