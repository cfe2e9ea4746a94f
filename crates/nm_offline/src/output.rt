//! The output of a word, and how the program ends with it.

ghost use Rattle.std.specs.Prelude.{◌≡◌, IfErr, IfOk, Ok};
ghost use Rattle.nm_command.specs.declared.status.Status.TheVariants.{Memory};
ghost use Rattle.nm_offline.specs.Output.{IsPut, output_seen};

use nm_base::Sink;
use nm_base::sink::write_all;
use nm_command::Status;
use std::alloc::AllocError;

/// A text for the output, and how the program ends once it is written.
#[derive(Drop)]
pub struct Output {
    pub text: Vec<u8>,
    pub status: Status,
}

impl Output {
    /// A text, and how the program ends with it.
    ///
    /// # Errors
    ///
    /// `Memory` if it was not made, since memory was refused.
    pub fn of(text: Result<Vec<u8>, AllocError>, status: Status) -> Result<Output, Status>
        ensures made { IfOk result (λ output. (output.status ≡ status) × (text ≡ Ok output.text)) }
        ensures fault { IfErr result (λ s. s ≡ Memory) }
    {
        let text = text?;
        Ok(Output { text, status })
    }
}

/// Writes a text, and gives the sink back.
fn put<O: Sink>(output: Output, mut out: O) -> (Status, O)
    ensures { IsPut (output_seen O.seen out)
        (output_seen O.seen result.1) output.text.items output.status result.0 }
{
    match write_all(&mut out, output.text.as_slice()) {
        Ok(()) => (output.status, out),
        Err(_) => (Status::File, out),
    }
}

/// Ends a word: writes its output, or passes on the status with which it has none. Gives the sink
/// back.
pub fn end<O: Sink>(said: Result<Output, Status>, out: O) -> (Status, O)
    ensures written { IfOk said (λ output. IsPut (output_seen O.seen out)
        (output_seen O.seen result.1) output.text.items output.status result.0) }
    ensures unsaid { IfErr said (λ status. (result.0 ≡ status) × (result.1 ≡ out)) }
{
    match said {
        Ok(output) => put(output, out),
        Err(status) => (status, out),
    }
}
