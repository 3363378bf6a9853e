//! The run of the lines that a job has already.

ghost use Rattle.std.specs.Prelude.{◌≡◌, ◌≤◌, [], true, IsErrOf, OnOk, length};
ghost use Rattle.std.specs.List.{AllByRecursion};
ghost use Rattle.mvs_model.specs.Lines.{IsUnended};
ghost use Rattle.mvs_model.specs.Numbers.{most_script_bytes};
ghost use Rattle.mvs_job.specs.LineEvents.{new_walk};
ghost use Rattle.terminal_session.specs.Sessions.{Replays};

use job_script::LineBuffer;
use mvs_job::{Consumer, Stop, Walk, run_entry};
use mvs_model::watched::Watched;
use std::io::Write;

/// Runs lines from the first one of a job on. Returns whether the job continues.
pub fn replay<W: Write, C: Consumer>(
    walk: &mut Walk,
    lines: &[LineBuffer],
    writer: &mut Watched<W>,
    consumer: &mut C,
) -> Result<bool, Stop>
    requires new { walk.old ≡ new_walk }
    requires knows { (C.knows consumer.old).has consumer.old [] }
    requires each { AllByRecursion IsUnended lines.now }
    requires few { length lines.now ≤ most_script_bytes }
    ensures ran { Replays C.piece (C.knows consumer.old) (W.contents writer.old.inner)
        (W.contents writer.new.inner) lines.now walk.new consumer.new result }
    ensures ok { OnOk result (writer.new.failed ≡ writer.old.failed) }
    ensures write { IsErrOf result Stop.Write → writer.new.failed ≡ true }
{
    for line in lines {
        let continues = run_entry(walk, line.bytes(), &[], writer, consumer)?;
        if !continues {
            return Ok(false);
        }
    }
    Ok(true)
}
