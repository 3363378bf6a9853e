//! The search for the schedules of a step.

ghost use Rattle.std.specs.Prelude.{◌≡◌, ℕ, ◌+◌, ◌<◌, ◌≤◌, ◌^◌, ◌++◌, ◌∷◌, [], List, false, IfOk, IfSome, OnOk, length};
ghost use Rattle.std.specs.List.{range_with_len};
ghost use Rattle.mvs_job.specs.LineEvents.{WalkValue};
ghost use Rattle.schedules.specs.Answered.{Schedule};
ghost use Rattle.schedules.specs.Counting.{AreOrders};
ghost use Rattle.schedules.specs.Filling.{IsFilled};
ghost use Rattle.schedules.specs.Next.{unreached};
ghost use Rattle.schedules.specs.Searched.{AreCounted, IsSearched};
ghost use Rattle.schedules.specs.Searching.{IsSearchedSoFar, weights};

use crate::branch::Branch;
use crate::branching::expand;
use crate::counting::orders_of;
use crate::machine::begin;
use crate::next::{first_next, push_unreached};
use crate::outcomes::Outcomes;
use crate::step_line::StepLine;
use crate::tally::Tally;
use mvs_model::error::OutOfMemory;
use mvs_model::want::Placement;
use std::alloc::Global;

/// The answers that occur in the schedules of a step, the number of the line of its REGION statement, and whether all its schedules were
/// run. If they were not, `orders` is the number of orders that keep the order of each task, unless it needs more than 64 bits.
#[derive(Drop)]
pub struct StepSchedules {
    pub line_number: u32,
    pub is_whole: bool,
    pub orders: Option<u64>,
    pub tally: Tally,
}

// Adds the schedule of a branch in which no statement can run to the table.
fn add_schedule(
    alloc: Global,
    lines: &[StepLine],
    branch: Branch,
    tally: &mut Tally,
    outcomes: &mut Outcomes,
) -> Result<(), OutOfMemory>
    requires tally { (schedules : List Schedule) × IsFilled schedules tally.old outcomes.old }
    requires room { tally.old.schedules + 1 < 2 ^ 32 }
    ensures count { OnOk result (tally.new.schedules ≡ tally.old.schedules + 1) }
    ensures added { OnOk result
        ((schedules : List Schedule) → IsFilled schedules tally.old outcomes.old
        → IsFilled (schedules ++ (branch.begun.items ++ unreached lines.now branch.left.items) ∷ [])
        tally.new outcomes.new) }
{
    let Branch {
        left,
        begun: mut schedule,
        ..
    } = branch;
    push_unreached(alloc, lines, &left, &mut schedule)?;
    tally.add(alloc, &schedule, outcomes)
}

// Adds the schedule of a branch in which no statement can run to the table, or puts the branches that follow it on the stack.
fn advance(
    alloc: Global,
    lines: &[StepLine],
    branch: Branch,
    stack: &mut Vec<Branch>,
    tally: &mut Tally,
    outcomes: &mut Outcomes,
) -> Result<(), OutOfMemory>
    requires tally { (schedules : List Schedule) × IsFilled schedules tally.old outcomes.old }
    requires room { tally.old.schedules + 1 < 2 ^ 32 }
    ensures so_far { OnOk result
        ((w : WalkValue) (left : List ℕ)
        → IsSearchedSoFar lines.now w left (stack.old.items ++ branch ∷ []) tally.old outcomes.old
        → IsSearchedSoFar lines.now w left stack.new.items tally.new outcomes.new) }
    ensures count { OnOk result (tally.new.schedules ≤ tally.old.schedules + 1) }
    ensures weight { OnOk result
        (weights stack.new.items < weights (stack.old.items ++ branch ∷ [])) }
{
    match first_next(lines, &branch.walk, &branch.left) {
        Some(first) => expand(alloc, lines, branch, first, stack),
        None => add_schedule(alloc, lines, branch, tally, outcomes),
    }
}

// Runs the schedules from a state of the job, and adds them to a table that is empty, up to a number of schedules.
fn search(
    alloc: Global,
    lines: &[StepLine],
    start: Branch,
    line_number: u32,
    most: u32,
) -> Result<StepSchedules, OutOfMemory>
    requires start { start.begun.items ≡ [] }
    requires room { length lines.now + 4 < 2 ^ 32 }
    ensures orders { IfOk result (λ found. IfSome found.orders (AreOrders lines.now)) }
    ensures number { IfOk result (λ found. found.line_number ≡ line_number) }
    ensures counted { IfOk result
        (λ found. AreCounted lines.now found.is_whole start.walk.value start.left.items found.tally) }
    ensures stopped { IfOk result
        (λ found. found.is_whole ≡ false → found.tally.schedules ≡ most) }
{
    let mut tally = Tally::new(alloc);
    let mut outcomes = Outcomes::new(alloc);
    let mut stack = Vec::new(alloc);
    stack.push(start).map_err(|_| OutOfMemory)?;
    'branches: while let Some(branch) = stack.pop() {
        if tally.schedules >= most {
            return Ok(StepSchedules {
                line_number,
                is_whole: false,
                orders: orders_of(lines),
                tally,
            });
        }
        advance(alloc, lines, branch, &mut stack, &mut tally, &mut outcomes)?;
    }
    Ok(StepSchedules {
        line_number,
        is_whole: true,
        orders: None,
        tally,
    })
}

/// Returns the positions of a number of lines.
pub(crate) fn all_positions(alloc: Global, count: usize) -> Result<Vec<usize>, OutOfMemory>
    ensures { IfOk result (λ all. all.items ≡ range_with_len 0 count) }
{
    let mut all = Vec::new(alloc);
    for position in 0..count {
        all.push(position).map_err(|_| OutOfMemory)?;
    }
    Ok(all)
}

/// Runs the schedules of the step that a REGION statement begins, up to a number of schedules.
pub fn search_step(
    alloc: Global,
    placement: Placement,
    region: &StepLine,
    lines: &[StepLine],
    most: u32,
) -> Result<StepSchedules, OutOfMemory>
    requires { length lines.now + 4 < 2 ^ 32 }
    ensures { IfOk result (IsSearched region.now lines.now most) }
{
    let start = Branch {
        walk: Box::new(alloc, begin(alloc, placement, region)?).map_err(|_| OutOfMemory)?,
        left: all_positions(alloc, lines.len())?,
        begun: Vec::new(alloc),
    };
    search(alloc, lines, start, region.number, most)
}
