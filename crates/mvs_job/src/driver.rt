//! The one loop over the lines of a script.

ghost use Rattle.std.specs.Prelude.{◌≡◌, ◌<◌, ◌≤◌, ◌+◌, ◌^◌, [], length, true, OnOk, IsErrOf};
ghost use Rattle.mvs_model.specs.Numbers.{most_script_bytes};
ghost use Rattle.mvs_job.specs.Consuming.{Leaves, RunsLast, RunsNext};

use crate::consumer::{Consumer, End};
use crate::lines::line_end;
use crate::printing::Stop;
use crate::walk::{LineEvent, Walk};
use mvs_model::outcome::Outcome;
use mvs_model::place::Addr;
use mvs_model::want::Placement;
use mvs_model::watched::Watched;
use std::alloc::Global;
use std::io::Write;

/// Executes one line, and gives its entry to a consumer. Returns whether the job continues. Areas and cells are placed at the
/// hinted addresses if the machine allows that.
#[inline(always)]
pub fn run_entry<W: Write, C: Consumer>(
    walk: &mut Walk,
    line: &[u8],
    hints: &[Addr],
    writer: &mut Watched<W>,
    consumer: &mut C,
) -> Result<bool, Stop>
    requires { walk.old.number + 1 < 2 ^ 32 }
    ensures ran { (first : C) → RunsNext C.piece (C.knows first) (W.contents writer.old.inner)
        (W.contents writer.new.inner) walk.old line.now walk.new consumer.old consumer.new result }
    ensures number { walk.new.number ≡ walk.old.number + 1 }
    ensures ok { OnOk result (writer.new.failed ≡ writer.old.failed) }
    ensures write { IsErrOf result Stop.Write → writer.new.failed ≡ true }
{
    let line_number = walk.number();
    let parsed = walk.parse(line);
    consumer.look(walk);
    match walk.execute(parsed, hints, consumer) {
        Ok(line_event) => {
            consumer.entry(writer, line_number, line, walk, &line_event)?;
            Ok(!matches!(line_event, LineEvent::Faulted(_)))
        }
        Err(stopped) => {
            consumer.end(writer, line_number, walk, End::Exhausted(stopped.ended))?;
            Err(Stop::Memory)
        }
    }
}

/// Ends a job that has no more lines, and gives the entry of its end to a consumer.
pub fn run_end<W: Write, C: Consumer>(
    walk: &Walk,
    writer: &mut Watched<W>,
    consumer: &mut C,
) -> Result<Outcome, Stop>
    ensures ran { (first : C) → RunsLast C.piece (C.knows first) (W.contents writer.old.inner)
        (W.contents writer.new.inner) walk.now consumer.old consumer.new result }
    ensures ok { OnOk result (writer.new.failed ≡ writer.old.failed) }
    ensures write { IsErrOf result Stop.Write → writer.new.failed ≡ true }
{
    let closing = walk.close();
    consumer.end(writer, walk.number(), walk, End::Closed(closing.ended))?;
    Ok(closing.outcome)
}

/// Runs a script of at most 16,777,215 bytes, and gives each entry of the run to a consumer.
pub fn run_lines<W: Write, C: Consumer>(
    alloc: Global,
    script: &[u8],
    writer: &mut Watched<W>,
    placement: Placement,
    consumer: &mut C,
) -> Result<Outcome, Stop>
    requires script { length script.now ≤ most_script_bytes }
    requires new { (C.knows consumer.old).has consumer.old [] }
    // What is written is what the consumer writes for a trace of the script, and the consumer has its entries. If a write failed,
    // it is a front of that.
    ensures written { Leaves C.piece (C.knows consumer.old) (W.contents writer.old.inner)
        (W.contents writer.new.inner) script.now consumer.new result }
    ensures ok { OnOk result (writer.new.failed ≡ writer.old.failed) }
    ensures write { IsErrOf result Stop.Write → writer.new.failed ≡ true }
{
    let mut walk = Walk::new(alloc, placement);
    let mut at = 0;
    'lines: while at < script.len() {
        let rest = &script[at..];
        let len = line_end(rest);
        let continues = run_entry(&mut walk, &rest[..len], &[], writer, consumer)?;
        if !continues {
            return Ok(Outcome::ScriptFault);
        }
        at += len + 1;
    }
    run_end(&walk, writer, consumer)
}
