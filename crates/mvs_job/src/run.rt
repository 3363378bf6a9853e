//! The whole job, from a reader to a writer.

ghost use Rattle.std.specs.Prelude.{◌≡◌, ◌≢◌, ◌⊎◌, ◌+◌, ◌<◌, ◌≤◌, [], List, Option, ℕ, length, take, true, false, IfOk, IfErr, OnOk, IsErrOf};
ghost use Rattle.std.specs.Io.KnownBytes.{IsAtEnd};
ghost use Rattle.mvs_model.specs.Runs.{IsAnswered, IsPrinting, IsPrintingFront};
ghost use Rattle.mvs_laws.specs.Labels.{IsLabelText};
ghost use Rattle.mvs_model.specs.Memory.{IsPrintingBefore};
ghost use Rattle.mvs_model.specs.Numbers.{most_script_bytes};
ghost use Rattle.mvs_laws.specs.Tidy.{Tidy, IsPrintingInFull};
ghost use Rattle.mvs_job.specs.Exchanging.{Exchanges};
ghost use Rattle.mvs_job.specs.Giving.{fault_text};
ghost use Rattle.mvs_job.specs.Streams.{HasEnded, HasGivenUp, fault_of};

use crate::consumer::Consumer;
use crate::hints::AddressHints;
use crate::printer::Printer;
use crate::printing::Stop;
use crate::source::Source;
use crate::stream::{Progress, Stream};
use mvs_model::numbers::MOST_SCRIPT_BYTES;
use mvs_model::outcome::Outcome;
use mvs_model::want::Placement;
use mvs_model::watched::Watched;
use std::alloc::Global;
use std::io::{Read, Write};
use thiserror::Error;

/// Why a job stopped with an error.
#[derive(Clone, Copy, Debug, PartialEq, Eq, Error)]
#[error("{}", self.text())]
pub enum RunFault {
    /// A read failed.
    Read,
    /// A write failed, or accepted no byte.
    Write,
    /// Memory was exhausted.
    Memory,
    /// The script has more than 16,777,215 bytes.
    ReadTooLong,
}

impl RunFault {
    /// Returns its message, in lower case and without a full stop. This project's choice.
    pub fn text(self) -> &'static str
        ensures { result.now ≡ fault_text self }
    {
        match self {
            RunFault::Read => "read failed",
            RunFault::Write => "write failed",
            RunFault::Memory => "out of memory",
            RunFault::ReadTooLong => "script too long",
        }
    }
}

impl From<Stop> for RunFault {
    ghost from_gives = { λ stop fault. fault ≡ fault_of stop };

    fn from(stop: Stop) -> RunFault {
        match stop {
            Stop::Write => RunFault::Write,
            Stop::Memory => RunFault::Memory,
        }
    }
}

/// The most bytes that one read requests.
const CHUNK: usize = 65_536;

/// Runs a script as it comes from any source, as `run_job` does from a reader, and gives each entry of the run to a consumer.
pub fn run_source<S: Source, W: Write, C: Consumer>(
    alloc: Global,
    reader: &mut S,
    writer: &mut Watched<W>,
    placement: Placement,
    hints: AddressHints,
    consumer: &mut C,
) -> Result<Outcome, RunFault>
    requires reader { S.failed reader.old ≡ false }
    requires writer { writer.old.failed ≡ false }
    requires new { (C.knows consumer.old).has consumer.old [] }
    // What is written is what the consumer writes for a trace of the script: of what was consumed and what the reader has left.
    ensures ok { IfOk result
        (HasEnded C.piece (C.knows consumer.old) (S.left reader.old) (S.left reader.new)
        (W.contents writer.old.inner) (W.contents writer.new.inner) most_script_bytes consumer.new) }
    // Otherwise it is the beginning of that; if memory is exhausted, all of it up to the answer that needed memory.
    ensures fault { IfErr result
        (HasGivenUp C.piece (C.knows consumer.old) (S.left reader.old) (S.left reader.new)
        (W.contents writer.old.inner) (W.contents writer.new.inner) most_script_bytes consumer.new) }
    // All was read, or the script has a fault.
    ensures end { IfOk result
        (λ outcome. outcome ≢ Outcome.ScriptFault → S.is_at_end reader.new) }
    ensures healthy { OnOk result ((S.failed reader.new ≡ false) × (writer.new.failed ≡ false)) }
    ensures read { IsErrOf result RunFault.Read → S.failed reader.new ≡ true }
    ensures write { IsErrOf result RunFault.Write → writer.new.failed ≡ true }
    ensures since { (start : Option (List ℕ)) → S.since start reader.old → S.since start reader.new }
{
    let mut stream = Stream::new(alloc, placement, hints);
    let mut chunk = [0u8; CHUNK];
    let mut count = 0usize;
    'reading: while count < MOST_SCRIPT_BYTES {
        let room = (MOST_SCRIPT_BYTES - count).min(CHUNK);
        match stream.pump(reader, writer, consumer, &mut chunk[..room])? {
            Progress::On(consumed) => count += consumed,
            Progress::Ended(outcome) => return Ok(outcome),
        }
    }
    stream.finish_stream(reader, writer, consumer)
}

/// Runs a script as it comes from any source, and prints it, as `run_job` does from a reader.
pub fn run_from<S: Source, W: Write>(
    alloc: Global,
    reader: &mut S,
    writer: &mut Watched<W>,
    placement: Placement,
    hints: AddressHints,
) -> Result<Outcome, RunFault>
    requires reader { S.failed reader.old ≡ false }
    requires writer { writer.old.failed ≡ false }
    // What is written is the printing of a run of the script: of what was consumed and what the reader has left.
    ensures ok { IfOk result
        (λ outcome. Exchanges (S.left reader.old) (S.left reader.new)
        (W.contents writer.old.inner) (W.contents writer.new.inner)
        (λ consumed script written. (length consumed ≤ most_script_bytes)
        × IsPrinting script written outcome)) }
    // If a tidy script was granted in full, it is what the label machine prints, wherever the areas are.
    ensures tidy { IfOk result
        (λ outcome. Exchanges (S.left reader.old) (S.left reader.new)
        (W.contents writer.old.inner) (W.contents writer.new.inner)
        (λ consumed script written. IsPrinting script written outcome
        × (Tidy script → IsPrintingInFull script written outcome
        → IsLabelText script written))) }
    // All was read, or the script has a fault.
    ensures end { IfOk result
        (λ outcome. outcome ≢ Outcome.ScriptFault → S.is_at_end reader.new) }
    ensures healthy { OnOk result ((S.failed reader.new ≡ false) × (writer.new.failed ≡ false)) }
    // Else it is a front of such a printing.
    ensures fault { IfErr result
        (λ fault. Exchanges (S.left reader.old) (S.left reader.new)
        (W.contents writer.old.inner) (W.contents writer.new.inner)
        (λ consumed script written. (length consumed ≤ most_script_bytes + 1)
        × IsPrintingFront script written
        × (fault ≡ RunFault.ReadTooLong → most_script_bytes < length consumed))) }
    // For want of memory it is the whole printing before the reply to a REGION statement, or to a granted request that sets a name.
    ensures memory { IfErr result
        (λ fault. fault ≡ RunFault.Memory
        → Exchanges (S.left reader.old) (S.left reader.new)
        (W.contents writer.old.inner) (W.contents writer.new.inner)
        (λ consumed script written. IsPrintingBefore script written)) }
    // Before a read that failed, and before the byte that is too many, all lines that have ended are answered.
    ensures answered { IfErr result
        (λ fault. (fault ≡ RunFault.Read) ⊎ (fault ≡ RunFault.ReadTooLong)
        → Exchanges (S.left reader.old) (S.left reader.new)
        (W.contents writer.old.inner) (W.contents writer.new.inner)
        (λ consumed script written. IsAnswered (take most_script_bytes consumed) written)) }
    ensures read { IsErrOf result RunFault.Read → S.failed reader.new ≡ true }
    ensures write { IsErrOf result RunFault.Write → writer.new.failed ≡ true }
    ensures since { (start : Option (List ℕ)) → S.since start reader.old → S.since start reader.new }
{
    run_source(alloc, reader, writer, placement, hints, &mut Printer)
}

/// Runs a script as it arrives. It reads at most 16,777,215 bytes, and one more to see that there are too many. It keeps at most a
/// line of it, flushes its output before each read, and reads nothing after a fault of the script. It tries the addresses of
/// `hints` first for what their lines are granted, and else those of the placement; no clause depends on either.
pub fn run_job<R: Read, W: Write>(
    alloc: Global,
    reader: &mut Watched<R>,
    writer: &mut Watched<W>,
    placement: Placement,
    hints: AddressHints,
) -> Result<Outcome, RunFault>
    requires reader { reader.old.failed ≡ false }
    requires writer { writer.old.failed ≡ false }
    // What is written is the printing of a run of the script: of what was consumed and what the reader has left.
    ensures ok { IfOk result
        (λ outcome. Exchanges (R.remaining reader.old.inner) (R.remaining reader.new.inner)
        (W.contents writer.old.inner) (W.contents writer.new.inner)
        (λ consumed script written. (length consumed ≤ most_script_bytes)
        × IsPrinting script written outcome)) }
    // If a tidy script was granted in full, it is what the label machine prints, wherever the areas are.
    ensures tidy { IfOk result
        (λ outcome. Exchanges (R.remaining reader.old.inner) (R.remaining reader.new.inner)
        (W.contents writer.old.inner) (W.contents writer.new.inner)
        (λ consumed script written. IsPrinting script written outcome
        × (Tidy script → IsPrintingInFull script written outcome
        → IsLabelText script written))) }
    // All was read, or the script has a fault.
    ensures end { IfOk result
        (λ outcome. outcome ≢ Outcome.ScriptFault → IsAtEnd (R.remaining reader.new.inner)) }
    ensures healthy { OnOk result ((reader.new.failed ≡ false) × (writer.new.failed ≡ false)) }
    // Else it is a front of such a printing.
    ensures fault { IfErr result
        (λ fault. Exchanges (R.remaining reader.old.inner) (R.remaining reader.new.inner)
        (W.contents writer.old.inner) (W.contents writer.new.inner)
        (λ consumed script written. (length consumed ≤ most_script_bytes + 1)
        × IsPrintingFront script written
        × (fault ≡ RunFault.ReadTooLong → most_script_bytes < length consumed))) }
    // For want of memory it is the whole printing before the reply to a REGION statement, or to a granted request that sets a name.
    ensures memory { IfErr result
        (λ fault. fault ≡ RunFault.Memory
        → Exchanges (R.remaining reader.old.inner) (R.remaining reader.new.inner)
        (W.contents writer.old.inner) (W.contents writer.new.inner)
        (λ consumed script written. IsPrintingBefore script written)) }
    // Before a read that failed, and before the byte that is too many, all lines that have ended are answered.
    ensures answered { IfErr result
        (λ fault. (fault ≡ RunFault.Read) ⊎ (fault ≡ RunFault.ReadTooLong)
        → Exchanges (R.remaining reader.old.inner) (R.remaining reader.new.inner)
        (W.contents writer.old.inner) (W.contents writer.new.inner)
        (λ consumed script written. IsAnswered (take most_script_bytes consumed) written)) }
    ensures read { IsErrOf result RunFault.Read → reader.new.failed ≡ true }
    ensures write { IsErrOf result RunFault.Write → writer.new.failed ≡ true }
{
    run_from(alloc, reader, writer, placement, hints)
}
