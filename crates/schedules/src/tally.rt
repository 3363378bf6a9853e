//! The table of the answers that occur in some schedules.

ghost use Rattle.std.specs.Prelude.{◌≡◌, ◌+◌, ◌<◌, ◌^◌, ◌++◌, ◌∷◌, [], List, IfOk, OnOk, if◌then◌else◌, map, true};
ghost use Rattle.std.specs.List.{AllByRecursion};
ghost use Rattle.schedules.specs.declared.tally.Row.{Row as RowValue};
ghost use Rattle.schedules.specs.Answered.{Schedule, gives};
ghost use Rattle.schedules.specs.Filling.{Fills, IsFilled, IsNewRow};
ghost use Rattle.schedules.specs.Tallies.{IsTally, counted, has_row};

use crate::answered::{Answered, gives, order_of};
use crate::outcomes::{Outcomes, outcome_of};
use mvs_model::error::OutOfMemory;
use std::alloc::Global;

/// An answer that occurs, the number of the schedules that give it, and the order of the first of them: the numbers of its lines.
#[derive(Drop)]
pub struct Row {
    pub answer: Answered,
    pub count: u32,
    pub first: Vec<u32>,
}

/// The answers that occur in some schedules, in the order in which they first occur, the number of these schedules, and the number of
/// their outcomes.
#[derive(Drop)]
pub struct Tally {
    pub rows: Vec<Row>,
    pub schedules: u32,
    pub outcomes: u32,
}

// Counts a schedule in a row if it gives the answer.
fn count_row(row: &mut Row, schedule: &[Answered])
    requires { row.old.count + 1 < 2 ^ 32 }
    ensures { row.new ≡ counted schedule.now row.old }
{
    if gives(&row.answer, schedule) {
        row.count += 1;
    }
}

// Counts a schedule in the rows of the answers that it gives.
fn count_rows(rows: &mut [Row], schedule: &[Answered])
    requires { AllByRecursion (λ r. r.count + 1 < 2 ^ 32) rows.old }
    ensures { rows.new ≡ map (counted schedule.now) rows.old }
{
    for row in rows.iter_mut() {
        count_row(row, schedule);
    }
}

// Returns whether a row is of an answer.
fn has_row(rows: &[Row], answer: &Answered) -> bool
    ensures { result ≡ has_row rows.now answer.now }
{
    rows.iter().any(|row| answer.is_same(&row.answer))
}

// Makes a row for an answer of a schedule that is the first to give it.
fn new_row(alloc: Global, answer: &Answered, schedule: &[Answered]) -> Result<Row, OutOfMemory>
    ensures { IfOk result (λ row. IsNewRow schedule.now answer.now row) }
{
    Ok(Row {
        answer: answer.try_clone(alloc)?,
        count: 1,
        first: order_of(alloc, schedule)?,
    })
}

// Adds a row for an answer of a schedule if it has none. The rows have been filled for some answers of the schedule before.
fn add_row(
    alloc: Global,
    rows: &mut Vec<Row>,
    answer: &Answered,
    schedule: &[Answered],
) -> Result<(), OutOfMemory>
    requires { gives answer.now schedule.now ≡ true }
    ensures { OnOk result
        ((seen : Schedule) (old : List RowValue) → Fills schedule.now seen old rows.old.items
        → Fills schedule.now (seen ++ answer.now ∷ []) old rows.new.items) }
{
    if has_row(rows, answer) {
        return Ok(());
    }
    let row = new_row(alloc, answer, schedule)?;
    rows.push(row).map_err(|_| OutOfMemory)?;
    Ok(())
}

// Adds a row for each answer of a schedule that has none.
fn add_rows(alloc: Global, rows: &mut Vec<Row>, schedule: &[Answered]) -> Result<(), OutOfMemory>
    ensures { OnOk result (Fills schedule.now schedule.now rows.old.items rows.new.items) }
{
    for answer in schedule {
        add_row(alloc, rows, answer, schedule)?;
    }
    Ok(())
}

// Returns a number of outcomes after one that is new, or is among them.
fn with_outcome(count: u32, is_new: bool) -> u32
    requires { count + 1 < 2 ^ 32 }
    ensures { result ≡ count + (if is_new then 1 else 0) }
{
    if is_new { count + 1 } else { count }
}

impl Tally {
    /// Makes the table of no schedules.
    pub fn new(alloc: Global) -> Tally
        ensures { IsTally [] result }
    {
        Tally {
            rows: Vec::new(alloc),
            schedules: 0,
            outcomes: 0,
        }
    }

    /// Adds a schedule, with its outcome to those of the schedules before. It fails if memory is exhausted.
    pub(crate) fn add(
        &mut self,
        alloc: Global,
        schedule: &[Answered],
        outcomes: &mut Outcomes,
    ) -> Result<(), OutOfMemory>
        requires filled { (schedules : List Schedule) × IsFilled schedules self.old outcomes.old }
        requires room { self.old.schedules + 1 < 2 ^ 32 }
        ensures count { OnOk result (self.new.schedules ≡ self.old.schedules + 1) }
        ensures added { OnOk result
            ((schedules : List Schedule) → IsFilled schedules self.old outcomes.old
            → IsFilled (schedules ++ schedule.now ∷ []) self.new outcomes.new) }
    {
        count_rows(&mut self.rows, schedule);
        add_rows(alloc, &mut self.rows, schedule)?;
        let is_new = outcomes.insert(outcome_of(alloc, &self.rows, schedule)?)?;
        self.outcomes = with_outcome(self.outcomes, is_new);
        self.schedules += 1;
        Ok(())
    }
}
