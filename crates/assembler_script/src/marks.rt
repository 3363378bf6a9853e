//! The texts of marks: what a reader has to choose.

use assembler_flow::{Loop, Target};
use assembler_statements::SourceStatement;
use std::alloc::{AllocError, Global};

// Returns the number of the statement at a place; 0 if there is none.
fn number_at(statements: &[SourceStatement], place: usize) -> u32 {
    match statements.get(place) {
        Some(statement) => statement.number,
        None => 0,
    }
}

// Returns the label of the statement at a place, or its number if it has none.
fn name_at(
    alloc: Global,
    statements: &[SourceStatement],
    place: usize,
) -> Result<String, AllocError> {
    match statements.get(place) {
        Some(statement) if !statement.label.is_empty() => statement.label.clone(),
        _ => {
            let number = number_at(statements, place);
            format!(in alloc; "{number}")
        }
    }
}

// Returns where a branch continues that is not taken.
fn on_to(
    alloc: Global,
    statements: &[SourceStatement],
    place: usize,
) -> Result<String, AllocError> {
    match statements.get(place.saturating_add(1)) {
        None => String::from_str(alloc, "on"),
        Some(next) if next.label.is_empty() => {
            let number = next.number;
            format!(in alloc; "on to line {number}")
        }
        Some(next) => {
            let number = next.number;
            let label = next.label.as_str();
            format!(in alloc; "on to {label} in line {number}")
        }
    }
}

/// Returns the mark of a branch at a place. It fails if memory is exhausted.
pub fn branch_mark(
    alloc: Global,
    statements: &[SourceStatement],
    place: usize,
    to: Target<'_>,
    is_conditional: bool,
) -> Result<String, AllocError> {
    let label = to.label;
    let number = number_at(statements, to.place);
    if !is_conditional {
        return format!(in alloc; "a branch to {label} in line {number}");
    }
    let on = on_to(alloc, statements, place)?;
    format!(in alloc; "a branch, {on} or to {label} in line {number}")
}

/// Returns the mark of a branch to a label that the source does not have. It fails if memory is exhausted.
pub fn away_mark(
    alloc: Global,
    statements: &[SourceStatement],
    place: usize,
    label: &str,
    is_conditional: bool,
) -> Result<String, AllocError> {
    if !is_conditional {
        return format!(in alloc; "a branch to {label}, which this source does not have");
    }
    let on = on_to(alloc, statements, place)?;
    format!(in alloc; "a branch, {on} or to {label}, which this source does not have")
}

/// Returns the mark of the branch at a place that closes a loop. It fails if memory is exhausted.
pub fn loop_mark(
    alloc: Global,
    statements: &[SourceStatement],
    place: usize,
    closed: &Loop,
) -> Result<String, AllocError> {
    let label = closed.label.as_str();
    let number = number_at(statements, closed.start);
    let on = on_to(alloc, statements, place)?;
    let name = name_at(alloc, statements, closed.start)?;
    format!(in alloc; "a loop, back to {label} in line {number} or {on} (--repeat {name}=N)")
}

/// Returns the mark of a conditional return. It fails if memory is exhausted.
pub fn return_mark(
    alloc: Global,
    statements: &[SourceStatement],
    place: usize,
) -> Result<String, AllocError> {
    let on = on_to(alloc, statements, place)?;
    format!(in alloc; "a return, or {on}")
}

/// Returns the mark after ATTACH: where the statements of the subtask belong. It fails if memory is exhausted.
pub fn attach_mark(
    alloc: Global,
    statements: &[SourceStatement],
    task: &str,
    start: Option<usize>,
) -> Result<String, AllocError> {
    match start {
        Some(start) => {
            let number = number_at(statements, start);
            format!(in alloc;
                "the statements of {task} (source line {number}) belong here or later (--schedule attach)"
            )
        }
        None => format!(in alloc;
            "the statements of {task} belong here or later; its program is not in this source"
        ),
    }
}
