//! The run of a line that was typed.

ghost use Rattle.std.specs.Prelude.{◌≡◌, ◌<◌, ◌+◌, ◌^◌, true, Ok, OnOk, IsErrOf};
ghost use Rattle.mvs_model.specs.Lines.{IsLine};
ghost use Rattle.mvs_model.specs.Reading.{LineOf};
ghost use Rattle.mvs_model.specs.Walk.{is_first};
ghost use Rattle.mvs_job.specs.Consuming.{RunsNext};
ghost use Rattle.terminal_session.specs.Steps.{continued};

use mvs_job::{Consumer, End, Stop, Walk};
use mvs_model::watched::Watched;
use std::io::Write;

/// Executes the line that the walk parsed last, which has no fault, and gives its entry to a consumer.
pub fn run_parsed<W: Write, C: Consumer>(
    walk: &mut Walk,
    line: &[u8],
    writer: &mut Watched<W>,
    consumer: &mut C,
) -> Result<(), Stop>
    requires number { walk.old.number + 1 < 2 ^ 32 }
    requires parsed { LineOf (is_first walk.old.step) line.now walk.old.read }
    requires in_range { IsLine (is_first walk.old.step) (Ok walk.old.read) }
    ensures ran { (first : C) → RunsNext C.piece (C.knows first) (W.contents writer.old.inner)
        (W.contents writer.new.inner) walk.old line.now walk.new consumer.old consumer.new
        (continued result) }
    ensures number { walk.new.number ≡ walk.old.number + 1 }
    ensures ok { OnOk result (writer.new.failed ≡ writer.old.failed) }
    ensures write { IsErrOf result Stop.Write → writer.new.failed ≡ true }
{
    let line_number = walk.number();
    consumer.look(walk);
    match walk.execute(Ok(()), &[], consumer) {
        Ok(line_event) => consumer.entry(writer, line_number, line, walk, &line_event),
        Err(stopped) => {
            consumer.end(writer, line_number, walk, End::Exhausted(stopped.ended))?;
            Err(Stop::Memory)
        }
    }
}
