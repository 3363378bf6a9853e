//! The outcomes that some schedules have.

ghost use Rattle.std.specs.Prelude.{◌≡◌, ◌||◌, ℕ, List, false, IfOk, OnOk, nat_eq, not};
ghost use Rattle.std.specs.Cmp.Lexicographic.{pointwise};
ghost use Rattle.schedules.specs.Filling.{has_outcome, outcome_from};

use crate::answered::{Answered, gives};
use crate::tally::Row;
use mvs_model::error::OutOfMemory;
use std::alloc::Global;
use std::collections::HashSet;

/// The outcomes that some schedules have, each once: the indices of the rows of its answers, in ascending order.
#[derive(Drop)]
pub(crate) struct Outcomes {
    found: HashSet<Vec<usize>>,
}

impl Outcomes {
    /// Makes a set without outcomes.
    pub(crate) fn new(alloc: Global) -> Outcomes
        ensures { (outcome : List ℕ) → has_outcome result outcome ≡ false }
    {
        Outcomes {
            found: HashSet::new(alloc),
        }
    }

    /// Adds an outcome, and returns whether it is new.
    pub(crate) fn insert(&mut self, outcome: Vec<usize>) -> Result<bool, OutOfMemory>
        ensures new { IfOk result (λ is_new. is_new ≡ not (has_outcome self.old outcome.items)) }
        ensures added { OnOk result
            ((other : List ℕ) → has_outcome self.new other
            ≡ (pointwise nat_eq other outcome.items || has_outcome self.old other)) }
    {
        self.found.insert(outcome).map_err(|_| OutOfMemory)
    }
}

/// Returns the outcome of a schedule: the indices of the rows of its answers.
pub(crate) fn outcome_of(
    alloc: Global,
    rows: &[Row],
    schedule: &[Answered],
) -> Result<Vec<usize>, OutOfMemory>
    ensures { IfOk result (λ outcome. outcome.items ≡ outcome_from 0 rows.now schedule.now) }
{
    let mut outcome = Vec::new(alloc);
    for (index, row) in rows.iter().enumerate() {
        if gives(&row.answer, schedule) {
            outcome.push(index).map_err(|_| OutOfMemory)?;
        }
    }
    Ok(outcome)
}
