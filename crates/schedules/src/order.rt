//! Orders of the statements of a step that are given from outside, and whether they are schedules.

ghost use Rattle.std.specs.Prelude.{◌≡◌, ◌≤◌, ◌<◌, ◌+◌, ◌^◌, ◌∷◌, [], ℕ, Some, true, false, IfErr, IfOk, IfSome, MatchOption, OnOk, drop, length, map, slice_get, slice_index, take};
ghost use Rattle.std.specs.List.{AllByRecursion, list_any};
ghost use Rattle.mvs_model.specs.Lines.{IsUnended, lines_of};
ghost use Rattle.mvs_model.specs.Numbers.{most_script_bytes};
ghost use Rattle.schedules.specs.Next.{is_of, number_of, some_can_run};
ghost use Rattle.schedules.specs.Orders.{HasOrder, IsOrder, IsOrdered, all_placed, placed};
ghost use Rattle.schedules.specs.Refusals.{IsReasonAt, IsRefusal, IsRefused, IsStepRefusal, IsUnreached, IsUnreachedAt, NoneRuns, RunsIf, begins_at, is_left, is_of_as, numbers_of, of_schedule, runs_as};
ghost use Rattle.schedules.specs.Searched.{positions};

use crate::machine::{begin, run_line};
use crate::next::{is_of, next_line, number_at};
use crate::ordered::Ordered;
use crate::script::{ScheduleError, before_region, read_statements};
use crate::search::all_positions;
use crate::step_line::StepLine;
use mvs_job::{Walk, line_end};
use mvs_model::error::OutOfMemory;
use mvs_model::line::Fault;
use mvs_model::name::Name;
use mvs_model::want::Placement;
use std::alloc::Global;
use thiserror::Error;

/// Why an order of statements is no schedule, by the numbers of their lines.
#[derive(Clone, Copy, Debug, PartialEq, Eq, Error)]
pub enum OrderError {
    #[error("out of memory")]
    Memory,
    #[error("line {line_number} has a fault")]
    Fault { line_number: u32, fault: Fault },
    #[error("expected the numbers of lines, with commas between them")]
    Malformed,
    #[error("there is no line in the order")]
    Empty,
    #[error("line {0} is not a REGION statement, with which a step begins")]
    NoRegion(u32),
    #[error("line {0} is not a statement of the step")]
    Foreign(u32),
    #[error("line {0} is there twice")]
    Twice(u32),
    #[error("line {0} is missing")]
    Missing(u32),
    #[error("line {line_number} comes before line {earlier} of the same task")]
    OutOfTurn { line_number: u32, earlier: u32 },
    #[error("the task of line {0} is not active then")]
    NotActive(u32),
    #[error("line {0} is not reached; such lines come last, in the order of the script")]
    NotReached(u32),
}

impl From<ScheduleError> for OrderError {
    ghost from_gives = { λ error why. why ≡ of_schedule error };

    fn from(error: ScheduleError) -> OrderError {
        match error {
            ScheduleError::Memory => OrderError::Memory,
            ScheduleError::Fault { line_number, fault } => OrderError::Fault { line_number, fault },
        }
    }
}

impl From<OutOfMemory> for OrderError {
    ghost use Rattle.schedules.specs.declared.order.OrderError.{OrderError};

    ghost from_gives = { λ _ why. why ≡ OrderError.Memory };

    fn from(_: OutOfMemory) -> OrderError {
        OrderError::Memory
    }
}

// Returns whether a line is the REGION statement with a number.
fn begins_at(line: &StepLine, number: u32) -> bool
    ensures { result ≡ begins_at number line.now }
{
    line.is_region && line.number == number
}

// Returns the index of the REGION statement with a number.
fn region_of(lines: &[StepLine], number: u32) -> Option<usize>
    ensures { MatchOption result (list_any (begins_at number) lines.now ≡ false)
        (λ index. (index < length lines.now) × IfSome (slice_get lines.now index) (λ l. begins_at number l ≡ true)) }
{
    let mut at = 0;
    'lines: while at < lines.len() {
        if begins_at(&lines[at], number) {
            return Some(at);
        }
        at += 1;
    }
    None
}

// Returns the index among some positions of the one of the line with a number.
fn place_of(lines: &[StepLine], left: &[usize], number: u32) -> Option<usize>
    ensures { MatchOption result (is_left lines.now left.now number ≡ false)
        (λ index. (index < length left.now)
        × (number_of (slice_get lines.now (slice_index left.now index)) ≡ number)) }
{
    let mut at = 0;
    'positions: while at < left.len() {
        if number_at(lines, left[at]) == number {
            return Some(at);
        }
        at += 1;
    }
    None
}

// Returns whether the statement at a position has a number and can run next. Those at the positions before have not run either.
fn runs_as(lines: &[StepLine], walk: &Walk, before: &[usize], position: usize, number: u32) -> bool
    ensures { result ≡ runs_as lines.now walk.now.step before.now position number }
{
    number_at(lines, position) == number && next_line(lines, walk, before, position).is_some()
}

// Returns the index among some positions of the statement that has a number and can run next.
fn place_of_next(lines: &[StepLine], walk: &Walk, left: &[usize], number: u32) -> Option<usize>
    ensures { MatchOption result (NoneRuns lines.now walk.now.step left.now number)
        (λ at. (at < length left.now)
        × (runs_as lines.now walk.now.step (take at left.now) (slice_index left.now at) number ≡ true)) }
{
    let mut at = 0;
    'positions: while at < left.len() {
        if runs_as(lines, walk, &left[..at], left[at], number) {
            return Some(at);
        }
        at += 1;
    }
    None
}

// Returns whether one of the statements at some positions can run next.
fn some_can_run(lines: &[StepLine], walk: &Walk, left: &[usize]) -> bool
    ensures { result ≡ some_can_run lines.now walk.now.step [] left.now }
{
    let mut at = 0;
    'positions: while at < left.len() {
        if next_line(lines, walk, &left[..at], left[at]).is_some() {
            return true;
        }
        at += 1;
    }
    false
}

// Returns the number of the first line of a task at some positions.
fn first_of(lines: &[StepLine], left: &[usize], task: &Name) -> Option<u32>
    ensures { MatchOption result (list_any (is_of lines.now task.now) left.now ≡ false)
        (λ n. list_any (is_of_as lines.now task.now n) left.now ≡ true) }
{
    let mut at = 0;
    'positions: while at < left.len() {
        if is_of(lines, task, left[at]) {
            return Some(number_at(lines, left[at]));
        }
        at += 1;
    }
    None
}

// Returns why the statement with the number at an index of an order cannot run next. The numbers before are those of statements that
// have run.
fn why_not(lines: &[StepLine], walk: &Walk, left: &[usize], order: &[u32], at: usize) -> OrderError
    requires at { at < length order.now }
    requires none { (n : ℕ) → slice_get order.now at ≡ Some n → NoneRuns lines.now walk.now.step left.now n }
    ensures { IsReasonAt lines.now walk.now left.now order.now at result }
{
    let number = order[at];
    if order[..at].contains(&number) {
        return OrderError::Twice(number);
    }
    let Some(place) = place_of(lines, left, number) else {
        return OrderError::Foreign(number);
    };
    let Some(line) = lines.get(left[place]) else {
        return OrderError::NotActive(number);
    };
    match first_of(lines, &left[..place], &line.task) {
        Some(earlier) => OrderError::OutOfTurn {
            line_number: number,
            earlier,
        },
        None => OrderError::NotActive(number),
    }
}

// Executes the statement with a number, if it can run next, and removes its position from those that are left. Returns whether it can.
fn run_number(
    alloc: Global,
    lines: &[StepLine],
    walk: &mut Walk,
    left: &mut Vec<usize>,
    number: u32,
) -> Result<bool, OutOfMemory>
    requires { walk.old.number + 1 < 2 ^ 32 }
    ensures runs { IfOk result
        (λ can. RunsIf can lines.now walk.old left.old.items number walk.new left.new.items) }
{
    let Some(at) = place_of_next(lines, walk, left, number) else {
        return Ok(false);
    };
    let Some(line) = next_line(lines, walk, &left[..at], left[at]) else {
        return Ok(false);
    };
    run_line(alloc, walk, line)?;
    left.remove(at);
    Ok(true)
}

// Returns the number of the first line at some positions.
fn first_number(lines: &[StepLine], left: &[usize]) -> u32
    requires { 0 < length left.now }
    ensures { is_left lines.now left.now result ≡ true }
{
    number_at(lines, left[0])
}

// Returns why the number at an index of an order is not that of the next statement that is not reached.
fn why_unreached(lines: &[StepLine], left: &[usize], order: &[u32], at: usize) -> OrderError
    requires { at < length order.now }
    ensures { IsUnreachedAt lines.now left.now order.now at result }
{
    let number = order[at];
    if order[..at].contains(&number) {
        OrderError::Twice(number)
    } else if place_of(lines, left, number).is_some() {
        OrderError::NotReached(number)
    } else {
        OrderError::Foreign(number)
    }
}

// Checks that an order has, from an index on, the statements that are not reached, in the order of the script.
fn check_unreached(
    lines: &[StepLine],
    left: &[usize],
    order: &[u32],
    from: usize,
) -> Result<(), OrderError>
    requires { from ≤ length order.now }
    ensures ok { OnOk result (drop from order.now ≡ numbers_of lines.now left.now) }
    ensures refused { IfErr result (IsUnreached lines.now left.now order.now from) }
{
    let mut at = 0;
    'positions: while at < left.len() {
        let number = number_at(lines, left[at]);
        let Some(next) = order[from..].get(at) else {
            return Err(OrderError::Missing(number));
        };
        if *next != number {
            return Err(why_unreached(lines, left, order, from + at));
        }
        at += 1;
    }
    match order[from..].get(at) {
        Some(_) => Err(why_unreached(lines, left, order, from + at)),
        None => Ok(()),
    }
}

// Runs statements in an order, and checks that it is a schedule.
fn follow(
    alloc: Global,
    lines: &[StepLine],
    walk: &mut Walk,
    left: &mut Vec<usize>,
    order: &[u32],
) -> Result<(), OrderError>
    requires { walk.old.number + length left.old.items + 1 < 2 ^ 32 }
    ensures ok { OnOk result (HasOrder lines.now walk.old left.old.items order.now) }
    ensures refused { left.old.items ≡ positions lines.now
        → IfErr result (IsRefusal lines.now walk.old order.now) }
{
    let mut at = 0;
    'statements: while some_can_run(lines, walk, left) {
        let Some(number) = order.get(at) else {
            return Err(OrderError::Missing(first_number(lines, left)));
        };
        let can_run = run_number(alloc, lines, walk, left, *number)?;
        if !can_run {
            return Err(why_not(lines, walk, left, order, at));
        }
        at += 1;
    }
    check_unreached(lines, left, order, at)
}

// Checks that an order, without the REGION statement, is a schedule of a step.
fn check_order(
    alloc: Global,
    placement: Placement,
    region: &StepLine,
    own: &[StepLine],
    order: &[u32],
) -> Result<(), OrderError>
    requires { length own.now + 4 < 2 ^ 32 }
    ensures ok { OnOk result (IsOrder region.now own.now (region.now.number ∷ order.now)) }
    ensures refused { IfErr result
        (IsStepRefusal region.now own.now (region.now.number ∷ order.now)) }
{
    let mut walk = begin(alloc, placement, region)?;
    let mut left = all_positions(alloc, own.len())?;
    follow(alloc, own, &mut walk, &mut left, order)
}

// Returns the number of the line that comes where a line was, if the statements come in an order.
fn placed(lines: &[StepLine], order: &[u32], number: u32) -> u32
    ensures { result ≡ placed lines.now order.now number }
{
    let mut at = 0;
    'lines: while at < lines.len() {
        if lines[at].number == number {
            return match order.get(at) {
                Some(other) => *other,
                None => number,
            };
        }
        at += 1;
    }
    number
}

// Returns the numbers of a number of lines in the order in which they run.
fn all_placed(
    alloc: Global,
    step: &[StepLine],
    order: &[u32],
    count: usize,
) -> Result<Vec<u32>, OutOfMemory>
    requires { count + 3 < 2 ^ 32 }
    ensures numbers { IfOk result (λ numbers. numbers.items ≡ all_placed step.now order.now count) }
    ensures few { IfOk result (λ numbers. length numbers.items + 3 < 2 ^ 32) }
{
    let mut numbers = Vec::new(alloc);
    let mut at = 0;
    'lines: while at < count {
        let number = placed(step, order, at as u32 + 1);
        numbers.push(number).map_err(|_| OutOfMemory)?;
        at += 1;
    }
    Ok(numbers)
}

// Returns the lines of a script.
fn lines_in<'a>(alloc: Global, script: &'a [u8]) -> Result<Vec<&'a [u8]>, OutOfMemory>
    requires { length script.now ≤ most_script_bytes }
    ensures lines { IfOk result (λ lines. map (λ l. l.now) lines.items ≡ lines_of script.now) }
    ensures unended { IfOk result (λ lines. AllByRecursion IsUnended (map (λ l. l.now) lines.items)) }
    ensures count { IfOk result (λ lines. length lines.items ≤ length script.now + 1) }
{
    let mut lines = Vec::new(alloc);
    let mut at = 0;
    'lines: while at < script.len() {
        let rest = &script[at..];
        let end = line_end(rest);
        lines.push(&rest[..end]).map_err(|_| OutOfMemory)?;
        at += end + 1;
    }
    Ok(lines)
}

/// Returns the lines of a script in the order in which they run, if the statements of one step come in an order that is given by the
/// numbers of their lines, its REGION statement first. It fails if the order is not that of a schedule.
pub fn order_script<'a>(
    alloc: Global,
    script: &'a [u8],
    placement: Placement,
    order: &[u32],
) -> Result<Ordered<'a>, OrderError>
    requires { length script.now ≤ most_script_bytes }
    ensures lines { IfOk result
        (λ ordered. map (λ l. l.now) ordered.lines.items ≡ lines_of script.now) }
    ensures order { IfOk result
        (λ ordered. IsOrdered script.now order.now ordered.numbers.items) }
    ensures refused { IfErr result (IsRefused script.now order.now) }
{
    let statements = read_statements(alloc, script, false)?;
    let Some(first) = order.first() else {
        return Err(OrderError::Empty);
    };
    let Some(index) = region_of(&statements, *first) else {
        return Err(OrderError::NoRegion(*first));
    };
    let others = &statements[index + 1..];
    let end = before_region(others);
    check_order(
        alloc,
        placement,
        &statements[index],
        &others[..end],
        &order[1..],
    )?;
    let lines = lines_in(alloc, script)?;
    let step = &statements[index..index + 1 + end];
    let numbers = all_placed(alloc, step, order, lines.len())?;
    Ok(Ordered { lines, numbers })
}
