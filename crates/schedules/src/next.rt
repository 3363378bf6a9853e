//! Which statement of a step can run next.

ghost use Rattle.std.specs.Prelude.{◌≡◌, ◌++◌, [], Some, true, false, IfSome, MatchOption, OnOk, is_some, slice_get};
ghost use Rattle.std.specs.List.{list_any};
ghost use Rattle.schedules.specs.Next.{IsFirstNext, can_run, is_of, number_of, some_can_run, unreached};

use crate::answered::Answered;
use crate::machine::is_active;
use crate::step_line::StepLine;
use mvs_job::Walk;
use mvs_model::error::OutOfMemory;
use mvs_model::name::Name;
use std::alloc::Global;

/// Returns whether the line at a position is a statement of a task.
pub(crate) fn is_of(lines: &[StepLine], task: &Name, position: usize) -> bool
    ensures { result ≡ is_of lines.now task.now position }
{
    match lines.get(position) {
        Some(line) => line.task == *task,
        None => false,
    }
}

// Returns whether the line at one of some positions is a statement of a task.
fn is_any_of(lines: &[StepLine], task: &Name, positions: &[usize]) -> bool
    ensures { result ≡ list_any (is_of lines.now task.now) positions.now }
{
    positions
        .iter()
        .any(|position| is_of(lines, task, *position))
}

/// Returns the statement at a position if it can run next. The statements at the positions before have not run either.
pub(crate) fn next_line<'a>(
    lines: &'a [StepLine],
    walk: &Walk,
    before: &[usize],
    position: usize,
) -> Option<&'a StepLine>
    ensures { MatchOption result (can_run lines.now walk.now.step before.now position ≡ false)
        (λ line. (can_run lines.now walk.now.step before.now position ≡ true)
        × (slice_get lines.now position ≡ Some line.now)) }
{
    let Some(line) = lines.get(position) else {
        return None;
    };
    if is_active(walk, &line.task) && !is_any_of(lines, &line.task, before) {
        Some(line)
    } else {
        None
    }
}

/// Returns the index of the first of some positions whose statement can run next.
pub(crate) fn first_next(lines: &[StepLine], walk: &Walk, left: &[usize]) -> Option<usize>
    ensures some { is_some result ≡ some_can_run lines.now walk.now.step [] left.now }
    ensures first { IfSome result (IsFirstNext lines.now walk.now.step left.now) }
{
    let mut at = 0;
    'positions: while at < left.len() {
        if next_line(lines, walk, &left[..at], left[at]).is_some() {
            return Some(at);
        }
        at += 1;
    }
    None
}

/// Returns the number of the line at a position.
pub(crate) fn number_at(lines: &[StepLine], position: usize) -> u32
    ensures { result ≡ number_of (slice_get lines.now position) }
{
    match lines.get(position) {
        Some(line) => line.number,
        None => 0,
    }
}

/// Appends the statements at some positions, which are not reached.
pub(crate) fn push_unreached(
    alloc: Global,
    lines: &[StepLine],
    left: &[usize],
    schedule: &mut Vec<Answered>,
) -> Result<(), OutOfMemory>
    ensures { OnOk result (schedule.new.items ≡ schedule.old.items ++ unreached lines.now left.now) }
{
    for position in left {
        let number = number_at(lines, *position);
        schedule
            .push(Answered::new(number, Vec::new(alloc)))
            .map_err(|_| OutOfMemory)?;
    }
    Ok(())
}
