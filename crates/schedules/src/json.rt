//! The report of the schedules of a script as lines of JSON.

ghost use Rattle.std.specs.Prelude.{◌≡◌, ◌++◌, IfOk, OnOk, if◌then◌else◌, codes, true};
ghost use Rattle.mvs_model.specs.Name.{trimmed};
ghost use Rattle.schedules.specs.JsonReports.{answer_json, count_json, counts_json, first_json, foot_json, head_json, json_from, line_json, order_json, orders_json, outcomes_json, row_json, rows_json};
ghost use Rattle.schedules.specs.Reports.{step_of};

use crate::exploring::Explored;
use crate::report::{push, push_answer, push_number, push_wide, step_of};
use crate::search::StepSchedules;
use crate::step_line::StepLine;
use crate::tally::Row;
use line_text::text::LineText;
use mvs_model::name::Name;
use std::alloc::{AllocError, Global};

// Appends a name.
fn push_name(report: &mut Vec<u8>, name: &Name) -> Result<(), AllocError>
    ensures { OnOk result (report.new.items ≡ report.old.items ++ trimmed name.now) }
{
    let mut text = LineText::new();
    text.push_name(name);
    report.extend_from_slice(text.as_slice())
}

// Appends the lines of a schedule, a comma before each.
fn push_order(report: &mut Vec<u8>, order: &[u32]) -> Result<(), AllocError>
    ensures { OnOk result (report.new.items ≡ report.old.items ++ order_json order.now) }
{
    for number in order {
        push(report, b",")?;
        push_number(report, *number)?;
    }
    Ok(())
}

// Appends an answer, and the number of schedules that give it.
fn push_count(report: &mut Vec<u8>, line: &StepLine, row: &Row) -> Result<(), AllocError>
    ensures { OnOk result (report.new.items ≡ report.old.items ++ answer_json line.now row.now) }
{
    push(report, b"{\"text\":\"")?;
    push_answer(report, line, row.answer.text())?;
    push(report, b"\",\"schedules\":")?;
    push_number(report, row.count)
}

// Appends the first schedule that gives an answer.
fn push_first(report: &mut Vec<u8>, step: &StepSchedules, row: &Row) -> Result<(), AllocError>
    ensures { OnOk result (report.new.items ≡ report.old.items ++ first_json step.now row.now) }
{
    push(report, b",\"first\":[")?;
    push_number(report, step.line_number)?;
    push_order(report, &row.first)?;
    push(report, b"]}")
}

// Appends an answer, with a comma before it unless it is the first of its statement.
fn push_row(
    report: &mut Vec<u8>,
    line: &StepLine,
    step: &StepSchedules,
    first: bool,
    row: &Row,
) -> Result<(), AllocError>
    ensures { OnOk result
        (report.new.items ≡ report.old.items ++ row_json line.now step.now first row.now) }
{
    if first {
        push_count(report, line, row)?;
        return push_first(report, step, row);
    }
    push(report, b",")?;
    push_count(report, line, row)?;
    push_first(report, step, row)
}

// Appends the answers of a statement.
fn push_rows(report: &mut Vec<u8>, line: &StepLine, step: &StepSchedules) -> Result<(), AllocError>
    ensures { OnOk result
        (report.new.items
        ≡ report.old.items ++ rows_json line.now step.now true step.now.tally.rows.items) }
{
    let mut first = true;
    for row in &step.tally.rows {
        if row.answer.line_number() == line.number {
            push_row(report, line, step, first, row)?;
            first = false;
        }
    }
    Ok(())
}

// Appends the beginning of the line of a statement.
fn push_head(report: &mut Vec<u8>, line: &StepLine) -> Result<(), AllocError>
    ensures { OnOk result (report.new.items ≡ report.old.items ++ head_json line.now) }
{
    push(report, b"{\"event\":\"answers\",\"line\":")?;
    push_number(report, line.number)?;
    push(report, b",\"task\":\"")?;
    push_name(report, &line.task)
}

// Appends a statement and its answers.
fn push_line(
    report: &mut Vec<u8>,
    line: &StepLine,
    steps: &[StepSchedules],
    begun: usize,
) -> Result<(), AllocError>
    ensures { OnOk result
        (report.new.items ≡ report.old.items ++ line_json line.now (step_of steps.now begun)) }
{
    let Some(step) = step_of(steps, begun) else {
        return Ok(());
    };
    push_head(report, line)?;
    push(report, b"\",\"answers\":[")?;
    push_rows(report, line, step)?;
    push(report, b"]}\n")
}

// Appends whether all schedules were run.
fn push_whole(report: &mut Vec<u8>, is_whole: bool) -> Result<(), AllocError>
    ensures { OnOk result
        (report.new.items
        ≡ report.old.items ++ (if is_whole then codes "true" else codes "false")) }
{
    if is_whole {
        push(report, b"true")
    } else {
        push(report, b"false")
    }
}

// Appends how many schedules there may be, if that is known.
fn push_orders(alloc: Global, report: &mut Vec<u8>, orders: Option<u64>) -> Result<(), AllocError>
    ensures { OnOk result (report.new.items ≡ report.old.items ++ orders_json orders) }
{
    let Some(orders) = orders else {
        return push(report, b"}\n");
    };
    push(report, b",\"orders\":")?;
    push_wide(alloc, report, orders)?;
    push(report, b"}\n")
}

// Appends the number of schedules of a step.
fn push_schedules(report: &mut Vec<u8>, step: &StepSchedules) -> Result<(), AllocError>
    ensures { OnOk result (report.new.items ≡ report.old.items ++ count_json step.now) }
{
    push(report, b"{\"event\":\"schedules\",\"line\":")?;
    push_number(report, step.line_number)?;
    push(report, b",\"schedules\":")?;
    push_number(report, step.tally.schedules)
}

// Appends the number of the outcomes of a step.
fn push_outcomes(report: &mut Vec<u8>, step: &StepSchedules) -> Result<(), AllocError>
    ensures { OnOk result (report.new.items ≡ report.old.items ++ outcomes_json step.now) }
{
    push(report, b",\"outcomes\":")?;
    push_number(report, step.tally.outcomes)
}

// Appends the number of schedules of a step, and of their outcomes.
fn push_counts(report: &mut Vec<u8>, step: &StepSchedules) -> Result<(), AllocError>
    ensures { OnOk result (report.new.items ≡ report.old.items ++ counts_json step.now) }
{
    push_schedules(report, step)?;
    push_outcomes(report, step)
}

// Appends the number of schedules of a step and of their outcomes, and whether these are all schedules.
fn push_foot(
    alloc: Global,
    report: &mut Vec<u8>,
    steps: &[StepSchedules],
    begun: usize,
) -> Result<(), AllocError>
    ensures { OnOk result (report.new.items ≡ report.old.items ++ foot_json (step_of steps.now begun)) }
{
    let Some(step) = step_of(steps, begun) else {
        return Ok(());
    };
    push_counts(report, step)?;
    push(report, b",\"whole\":")?;
    push_whole(report, step.is_whole)?;
    push_orders(alloc, report, step.orders)
}

// Appends the reports of all steps.
fn push_steps(
    alloc: Global,
    report: &mut Vec<u8>,
    lines: &[StepLine],
    steps: &[StepSchedules],
) -> Result<(), AllocError>
    ensures { OnOk result (report.new.items ≡ report.old.items ++ json_from steps.now 0 lines.now) }
{
    let mut begun = 0;
    for line in lines {
        if line.is_region {
            push_foot(alloc, report, steps, begun)?;
            begun += 1;
        } else {
            push_line(report, line, steps, begun)?;
        }
    }
    push_foot(alloc, report, steps, begun)
}

/// Writes the report of the schedules of a script as lines of JSON. It fails if memory is exhausted.
pub fn json_report(alloc: Global, explored: &Explored) -> Result<Vec<u8>, AllocError>
    ensures { IfOk result
        (λ report. report.items ≡ json_from explored.now.steps.items 0 explored.now.lines.items) }
{
    let mut report = Vec::new(alloc);
    push_steps(alloc, &mut report, &explored.lines, &explored.steps)?;
    Ok(report)
}
