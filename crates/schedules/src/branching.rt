//! The branches of a search: the statements that can run next.

ghost use Rattle.std.specs.Prelude.{◌≡◌, ◌+◌, ◌-◌, ◌*◌, ◌<◌, ◌≤◌, [], Some, IfOk, OnOk, length, slice_get, slice_index, take};
ghost use Rattle.schedules.specs.Next.{IsFirstNext};
ghost use Rattle.schedules.specs.Searching.{Expands, IsAfter, IsCopy, Pushes, weight, weights};

use crate::answered::copies;
use crate::branch::Branch;
use crate::machine::run_line;
use crate::next::next_line;
use crate::step_line::StepLine;
use mvs_model::error::OutOfMemory;
use std::alloc::Global;

// Returns a copy of a branch.
fn copy_of(alloc: Global, branch: &Branch) -> Result<Branch, OutOfMemory>
    ensures { IfOk result (IsCopy branch.now) }
{
    let walk = branch.walk.try_clone()?;
    Ok(Branch {
        walk: Box::new(alloc, walk).map_err(|_| OutOfMemory)?,
        left: Vec::from_slice(alloc, &branch.left).map_err(|_| OutOfMemory)?,
        begun: copies(alloc, &branch.begun)?,
    })
}

// Returns the branch in which the statement at an index of the positions has run.
fn run_next(
    alloc: Global,
    lines: &[StepLine],
    branch: Branch,
    at: usize,
    line: &StepLine,
) -> Result<Branch, OutOfMemory>
    requires at { at < length branch.left.items }
    requires line { slice_get lines.now (slice_index branch.left.items at) ≡ Some line.now }
    ensures { IfOk result (IsAfter lines.now branch at (slice_index branch.left.items at)) }
{
    let Branch {
        mut walk,
        mut left,
        mut begun,
    } = branch;
    let answer = run_line(alloc, &mut walk, line)?;
    left.remove(at);
    begun.push(answer).map_err(|_| OutOfMemory)?;
    Ok(Branch { walk, left, begun })
}

// Adds the branch in which the statement at an index of the positions runs, if it can run.
fn push_next(
    alloc: Global,
    lines: &[StepLine],
    branch: &Branch,
    at: usize,
    stack: &mut Vec<Branch>,
) -> Result<(), OutOfMemory>
    requires { at < length branch.now.left.items }
    ensures { OnOk result
        (Pushes lines.now branch.now at (slice_index branch.now.left.items at) stack.old.items
        stack.new.items) }
{
    let Some(line) = next_line(lines, &branch.walk, &branch.left[..at], branch.left[at]) else {
        return Ok(());
    };
    let next = run_next(alloc, lines, copy_of(alloc, branch)?, at, line)?;
    stack.push(next).map_err(|_| OutOfMemory)?;
    Ok(())
}

// Adds the branch in which the statement at an index of the positions runs, if it can run. It takes the place of the branch before.
fn push_first(
    alloc: Global,
    lines: &[StepLine],
    branch: Branch,
    at: usize,
    stack: &mut Vec<Branch>,
) -> Result<(), OutOfMemory>
    requires { at < length branch.left.items }
    ensures { OnOk result
        (Pushes lines.now branch at (slice_index branch.left.items at) stack.old.items
        stack.new.items) }
{
    let Some(line) = next_line(lines, &branch.walk, &branch.left[..at], branch.left[at]) else {
        return Ok(());
    };
    let next = run_next(alloc, lines, branch, at, line)?;
    stack.push(next).map_err(|_| OutOfMemory)?;
    Ok(())
}

/// Adds the branches in which one of the statements that are left runs next, the first one on top. At this index of the positions is the
/// first that can run.
pub(crate) fn expand(
    alloc: Global,
    lines: &[StepLine],
    branch: Branch,
    first: usize,
    stack: &mut Vec<Branch>,
) -> Result<(), OutOfMemory>
    requires { IsFirstNext lines.now branch.walk.value.step branch.left.items first }
    ensures each { OnOk result
        (Expands lines.now branch [] branch.left.items stack.old.items stack.new.items) }
    ensures weight { OnOk result
        (weights stack.new.items ≤ weights stack.old.items
        + length branch.left.items * weight (length branch.left.items - 1)) }
{
    let mut at = branch.left.len();
    'positions: while at > first + 1 {
        at -= 1;
        push_next(alloc, lines, &branch, at, stack)?;
    }
    push_first(alloc, lines, branch, first, stack)
}
