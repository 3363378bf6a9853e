//! How scripts and outputs are read: the one way for all that the program does with a script that is whole.

ghost use Rattle.std.specs.Prelude.{◌≡◌, ◌≤◌, IfOk, IfSome, length, take};
ghost use Rattle.mvs_job.specs.Exchanging.{IsRest};
ghost use Rattle.mvs_model.specs.Numbers.{most_script_bytes};

use crate::ending::{Cause, CliError};
use mvs_job::RunFault;
use mvs_model::numbers::MOST_SCRIPT_BYTES;
use std::alloc::Global;
use std::io::{self, ErrorKind, Read};

/// The most bytes of an output that is judged.
const MOST_OUTPUT_BYTES: usize = 268_435_455;

/// Returns why the program stops at a read that failed.
pub fn read_fault(error: &io::Error) -> CliError {
    match error.kind() {
        ErrorKind::OutOfMemory => CliError::Job(RunFault::Memory),
        ErrorKind::IsADirectory => CliError::Script(Cause::Directory),
        _ => CliError::Job(RunFault::Read),
    }
}

// Reads the bytes that a reader has, up to a number.
fn bytes_of<R: Read + Drop>(alloc: Global, reader: R, most: u64) -> Result<Vec<u8>, CliError>
    ensures { IfOk result (λ bytes. IfSome (R.remaining reader) (λ xs. bytes.items ≡ take most xs)) }
{
    let mut bytes = Vec::new(alloc);
    reader
        .take(most)
        .read_to_end(&mut bytes)
        .map_err(|error| read_fault(&error))?;
    Ok(bytes)
}

/// Reads a script: all bytes that a reader has. Fails if these are more than 16,777,215.
pub fn read_script<R: Read + Drop>(alloc: Global, reader: R) -> Result<Vec<u8>, CliError>
    ensures whole { IfOk result (λ script. IsRest (R.remaining reader) script.items) }
    ensures most { IfOk result (λ script. length script.items ≤ most_script_bytes) }
{
    let script = bytes_of(alloc, reader, MOST_SCRIPT_BYTES as u64 + 1)?;
    if script.len() > MOST_SCRIPT_BYTES {
        return Err(CliError::Job(RunFault::ReadTooLong));
    }
    Ok(script)
}

// Returns why the program stops at a read of an output that failed.
fn output_failure(why: CliError) -> CliError {
    match why {
        CliError::Script(cause) => CliError::Output(cause),
        why => why,
    }
}

/// Reads an output that is judged: all bytes that a reader has. Fails if these are more than 268,435,455.
pub fn read_output<R: Read + Drop>(alloc: Global, reader: R) -> Result<Vec<u8>, CliError>
    ensures { IfOk result (λ output. IsRest (R.remaining reader) output.items) }
{
    let output = bytes_of(alloc, reader, MOST_OUTPUT_BYTES as u64 + 1).map_err(output_failure)?;
    if output.len() > MOST_OUTPUT_BYTES {
        return Err(CliError::Output(Cause::TooLong));
    }
    Ok(output)
}
