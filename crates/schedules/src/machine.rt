//! The job that runs the statements of a step.

ghost use Rattle.std.specs.Prelude.{◌≡◌, ◌+◌, ◌<◌, ◌^◌, ℕ, Some, IfOk, slice_get};
ghost use Rattle.mvs_model.specs.Texts.{printing};
ghost use Rattle.mvs_job.specs.declared.walk.LineEvent.{LineEvent as Happened};
ghost use Rattle.mvs_job.specs.LineEvents.{IsAvailable, ServesAs, events_of_line, new_walk};
ghost use Rattle.schedules.specs.Next.{is_task_active};
ghost use Rattle.schedules.specs.Schedules.{RunsLine};

use crate::answered::Answered;
use crate::step_line::StepLine;
use crate::texts::compared;
use mvs_job::{LineEvent, Walk, print_line};
use mvs_model::error::OutOfMemory;
use mvs_model::name::Name;
use mvs_model::want::Placement;
use mvs_model::watched::Watched;
use std::alloc::Global;

/// Returns whether a task is active in the step that runs.
pub(crate) fn is_active(walk: &Walk, task: &Name) -> bool
    ensures { result ≡ is_task_active walk.now.step task.now }
{
    match walk.job() {
        Some(job) => job.step().is_active(task),
        None => false,
    }
}

// Returns what is printed of the events of a line.
fn printed(
    alloc: Global,
    line_number: u32,
    walk: &Walk,
    line_event: &LineEvent,
) -> Result<Vec<u8>, OutOfMemory>
    requires { IsAvailable walk.now line_event.now }
    ensures { IfOk result
        (λ text. text.items ≡ printing (events_of_line line_number walk.now line_event.now)) }
{
    let mut writer = Watched::new(Vec::new(alloc));
    print_line(&mut writer, line_number, walk, line_event).map_err(|_| OutOfMemory)?;
    Ok(writer.into_inner())
}

/// Executes a statement of a step, and returns its answer.
pub(crate) fn run_line(
    alloc: Global,
    walk: &mut Walk,
    line: &StepLine,
) -> Result<Answered, OutOfMemory>
    requires { walk.old.number + 1 < 2 ^ 32 }
    ensures runs { IfOk result (λ answer. RunsLine line.now walk.old answer walk.new) }
    ensures number { walk.new.number ≡ walk.old.number + 1 }
{
    let Ok(line_event) = walk.line(&line.bytes, &[]) else {
        return Err(OutOfMemory);
    };
    let text = printed(alloc, line.number, walk, &line_event)?;
    Ok(Answered::new(line.number, compared(line, text)))
}

/// Begins a step with its REGION statement.
pub(crate) fn begin(
    alloc: Global,
    placement: Placement,
    region: &StepLine,
) -> Result<Walk, OutOfMemory>
    ensures begins { IfOk result
        (λ walk. (line_event : Happened) × ServesAs new_walk region.now.bytes.items line_event walk) }
    ensures number { IfOk result (λ walk. walk.number ≡ 2) }
{
    let mut walk = Walk::new(alloc, placement);
    match walk.line(&region.bytes, &[]) {
        Ok(_) => Ok(walk),
        Err(_) => Err(OutOfMemory),
    }
}
