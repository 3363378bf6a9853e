//! Runs a script as it comes.

ghost use Rattle.std.specs.Prelude.{◌≡◌, ◌≢◌, ◌<◌, ◌≤◌, ◌+◌, ◌⊎◌, [], Err, List, Ok, Option, ℕ, true, false, length, take, IfErr, IfOk, IfSome, IsErrOf, IsSome, OnOk};
ghost use Rattle.std.specs.Io.KnownBytes.{IsAtEnd};
ghost use Rattle.mvs_model.specs.Memory.{IsPrintingBefore};
ghost use Rattle.mvs_model.specs.Numbers.{most_script_bytes};
ghost use Rattle.mvs_model.specs.Runs.{IsAnswered, IsPrinting, IsPrintingFront};
ghost use Rattle.mvs_job.specs.Consuming.{WritesText};
ghost use Rattle.mvs_job.specs.Streams.{StopsText};
ghost use Rattle.page.specs.Pages.{IsPage, IsShown, StopsPage};
ghost use Rattle.mvsjob.specs.Streaming.{Writes, WritesPageOf, WritesPart};

use crate::recorder::LineRecorder;
use mvs_job::{AddressHints, Consumer, RunFault, run_job, run_source};
use mvs_model::outcome::Outcome;
use mvs_model::want::Placement;
use mvs_model::watched::Watched;
use page::{FRAME, SECOND_RUN, write_page_from};
use std::alloc::Global;
use std::io::{Read, Write};

/// How a job ended, and its reader, which keeps the lines of its last read.
#[derive(Drop)]
pub struct Streamed<R> {
    pub ended: Result<Outcome, RunFault>,
    pub reader: Watched<LineRecorder<R>>,
}

/// Runs the script that a reader has, each line before the next one is read.
pub fn run_streamed<R: Read + Drop, W: Write>(
    alloc: Global,
    reader: LineRecorder<R>,
    writer: &mut Watched<W>,
    placement: Placement,
) -> Streamed<R>
    requires { writer.old.failed ≡ false }
    // What is written is the printing of a run of the script.
    ensures ok { IfOk result.ended
        (λ outcome. Writes (R.remaining reader.inner)
        (W.contents writer.old.inner) (W.contents writer.new.inner)
        (λ script written. IsPrinting script written outcome)) }
    // All was read, or the script has a fault.
    ensures end { IfOk result.ended
        (λ outcome. outcome ≢ Outcome.ScriptFault → IsAtEnd (R.remaining result.reader.inner.inner)) }
    ensures healthy { OnOk result.ended ((result.reader.failed ≡ false) × (writer.new.failed ≡ false)) }
    // Else it is a front of such a printing; for want of memory the whole printing before the reply to a statement that takes some.
    ensures fault { IfErr result.ended
        (λ fault. WritesPart (R.remaining reader.inner)
        (W.contents writer.old.inner) (W.contents writer.new.inner)
        (λ consumed script written. (length consumed ≤ most_script_bytes + 1)
        × IsPrintingFront script written
        × (fault ≡ RunFault.ReadTooLong → most_script_bytes < length consumed))) }
    ensures memory { IfErr result.ended
        (λ fault. fault ≡ RunFault.Memory → Writes (R.remaining reader.inner)
        (W.contents writer.old.inner) (W.contents writer.new.inner)
        (λ script written. IsPrintingBefore script written)) }
    // Before a read that failed, and before the byte that is too many, all lines that have ended are answered.
    ensures answered { IfErr result.ended
        (λ fault. (fault ≡ RunFault.Read) ⊎ (fault ≡ RunFault.ReadTooLong)
        → WritesPart (R.remaining reader.inner)
        (W.contents writer.old.inner) (W.contents writer.new.inner)
        (λ consumed script written. IsAnswered (take most_script_bytes consumed) written)) }
    ensures read { IsErrOf result.ended RunFault.Read → result.reader.failed ≡ true }
    ensures write { IsErrOf result.ended RunFault.Write → writer.new.failed ≡ true }
{
    let mut reader = Watched::new(reader);
    let ended = run_job(
        alloc,
        &mut reader,
        writer,
        placement,
        AddressHints::nothing(alloc),
    );
    Streamed { ended, reader }
}

/// Runs the script that a reader has, each line before the next one is read, and gives each entry of the run to a consumer.
pub fn stream_to<R: Read + Drop, W: Write, C: Consumer>(
    alloc: Global,
    reader: LineRecorder<R>,
    writer: &mut Watched<W>,
    placement: Placement,
    consumer: &mut C,
) -> Streamed<R>
    requires writer { writer.old.failed ≡ false }
    requires new { (C.knows consumer.old).has consumer.old [] }
    // What is written is what the consumer writes for a trace of the script.
    ensures ok { IfOk result.ended
        (λ outcome. Writes (R.remaining reader.inner)
        (W.contents writer.old.inner) (W.contents writer.new.inner)
        (λ script written. WritesText C.piece script written (Ok outcome))) }
    // All was read, or the script has a fault.
    ensures end { IfOk result.ended
        (λ outcome. outcome ≢ Outcome.ScriptFault → IsAtEnd (R.remaining result.reader.inner.inner)) }
    ensures healthy { OnOk result.ended ((result.reader.failed ≡ false) × (writer.new.failed ≡ false)) }
    // Else it is a front of that; if memory is exhausted, all up to the answer for which there was none.
    ensures fault { IfErr result.ended
        (λ fault. WritesPart (R.remaining reader.inner)
        (W.contents writer.old.inner) (W.contents writer.new.inner)
        (λ consumed script written. StopsText C.piece consumed script written fault)) }
    ensures read { IsErrOf result.ended RunFault.Read → result.reader.failed ≡ true }
    ensures write { IsErrOf result.ended RunFault.Write → writer.new.failed ≡ true }
{
    let mut reader = Watched::new(reader);
    let hints = AddressHints::nothing(alloc);
    let ended = run_source(alloc, &mut reader, writer, placement, hints, consumer);
    Streamed { ended, reader }
}

/// Writes the run of the script that a reader has as a page with this fixed part, the item of each line before the next one is read.
pub fn stream_page<R: Read + Drop, W: Write>(
    alloc: Global,
    frame: &[u8],
    reader: LineRecorder<R>,
    writer: &mut Watched<W>,
    placement: Placement,
) -> Streamed<R>
    requires { writer.old.failed ≡ false }
    // What is written is the page of a run of the script.
    ensures page { IfOk result.ended
        (λ outcome. Writes (R.remaining reader.inner)
        (W.contents writer.old.inner) (W.contents writer.new.inner)
        (λ script text. IsPage frame.now script text (Ok outcome))) }
    // The texts of its `<pre>` without a class are the printing of a run.
    ensures shown { IfOk result.ended
        (λ outcome. Writes (R.remaining reader.inner)
        (W.contents writer.old.inner) (W.contents writer.new.inner)
        (λ script text. IsShown frame.now script text outcome)) }
    // All was read, or the script has a fault.
    ensures end { IfOk result.ended
        (λ outcome. outcome ≢ Outcome.ScriptFault → IsAtEnd (R.remaining result.reader.inner.inner)) }
    ensures healthy { OnOk result.ended ((result.reader.failed ≡ false) × (writer.new.failed ≡ false)) }
    // Else it is a front of that; if memory is exhausted, it ends with a whole item.
    ensures fault { IfErr result.ended
        (λ fault. WritesPart (R.remaining reader.inner)
        (W.contents writer.old.inner) (W.contents writer.new.inner)
        (λ consumed script text. StopsPage frame.now consumed script text fault)) }
    ensures read { IsErrOf result.ended RunFault.Read → result.reader.failed ≡ true }
    ensures write { IsErrOf result.ended RunFault.Write → writer.new.failed ≡ true }
{
    let mut reader = Watched::new(reader);
    let ended = write_page_from(alloc, frame, &mut reader, writer, placement);
    Streamed { ended, reader }
}

/// The runs of a page: that of a script, and that of a second one, unless the first stopped.
#[derive(Drop)]
pub struct TwoRuns<R, S> {
    pub first: Streamed<R>,
    pub second: Option<Streamed<S>>,
}

/// Writes the page of a run, and after it the page of the run of a second script, behind a line of its own. If the first run stops, the
/// second one is not begun.
pub fn stream_two_pages<R: Read + Drop, S: Read + Drop, W: Write>(
    alloc: Global,
    first: LineRecorder<R>,
    second: LineRecorder<S>,
    writer: &mut Watched<W>,
    placements: (Placement, Placement),
) -> TwoRuns<R, S>
    requires { writer.old.failed ≡ false }
    // The second page follows the first, also if its run stops.
    ensures pages { IfOk result.first.ended
        (λ outcome. (mid : Option (List ℕ))
        × WritesPageOf (R.remaining first.inner) (W.contents writer.old.inner) mid FRAME.now (Ok outcome)
        × IfSome result.second
        (λ run. WritesPageOf (S.remaining second.inner) mid (W.contents writer.new.inner) SECOND_RUN.now run.ended)) }
    ensures begun { OnOk result.first.ended (IsSome result.second) }
    ensures fault { IfErr result.first.ended
        (λ fault. WritesPageOf (R.remaining first.inner)
        (W.contents writer.old.inner) (W.contents writer.new.inner) FRAME.now (Err fault)) }
{
    let first = stream_page(alloc, FRAME.as_bytes(), first, writer, placements.0);
    if first.ended.is_err() {
        return TwoRuns {
            first,
            second: None,
        };
    }
    let second = stream_page(alloc, SECOND_RUN.as_bytes(), second, writer, placements.1);
    TwoRuns {
        first,
        second: Some(second),
    }
}
