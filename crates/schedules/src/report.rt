//! The report of the schedules of a script.

ghost use Rattle.std.specs.Prelude.{◌≡◌, ◌++◌, ◌+◌, ◌<◌, ◌^◌, IfOk, MatchOption, None, OnOk, Some, decimal, false, true};
ghost use Rattle.std.specs.List.{list_any};
ghost use Rattle.mvs_model.specs.Lines.{lines_of};
ghost use Rattle.schedules.specs.Reports.{foot_text, further, has_two, is_further, is_part, line_report, order_text, orders_text, outcomes_text, report_from, row_text, rows_text, schedules_word, shown, statement_text, step_of, step_text, step_varies, verdict_of};

use crate::exploring::Explored;
use crate::search::StepSchedules;
use crate::step_line::StepLine;
use crate::tally::Row;
use crate::texts::{digits, head_length, without_front};
use line_text::text::LineText;
use mvs_job::line_end;
use std::alloc::{AllocError, Global};

/// What the tables of the steps of a script show.
#[derive(Clone, Copy, Debug, PartialEq, Eq)]
pub enum Verdict {
    /// All schedules were run, and each statement has one answer.
    Same,
    /// All schedules were run, and some statement has several answers.
    Varies,
    /// Not all schedules were run.
    Stopped,
}

/// Appends a text.
pub(crate) fn push(report: &mut Vec<u8>, text: &[u8]) -> Result<(), AllocError>
    ensures { OnOk result (report.new.items ≡ report.old.items ++ text.now) }
{
    report.extend_from_slice(text)
}

/// Appends a number.
pub(crate) fn push_number(report: &mut Vec<u8>, number: u32) -> Result<(), AllocError>
    ensures { OnOk result (report.new.items ≡ report.old.items ++ decimal number) }
{
    let mut text = LineText::new();
    text.push_decimal(number);
    report.extend_from_slice(text.as_slice())
}

/// Appends a number of up to 64 bits.
pub(crate) fn push_wide(alloc: Global, report: &mut Vec<u8>, number: u64) -> Result<(), AllocError>
    ensures { OnOk result (report.new.items ≡ report.old.items ++ decimal number) }
{
    let text = format!(in alloc; "{number}")?;
    report.extend_from_slice(text.as_bytes())
}

// Appends further lines of an answer, each without the number of the line.
fn push_further(report: &mut Vec<u8>, number: usize, text: &[u8]) -> Result<(), AllocError>
    requires { number + 1 < 2 ^ 32 }
    ensures { OnOk result (report.new.items ≡ report.old.items ++ further number (lines_of text.now)) }
{
    let mut at = 0;
    'lines: while at < text.len() {
        let rest = without_front(text, at);
        let end = line_end(rest);
        push(report, b" / ")?;
        push(report, without_front(&rest[..end], number + 1))?;
        at += end + 1;
    }
    Ok(())
}

/// Appends the answer to a statement.
pub(crate) fn push_answer(
    report: &mut Vec<u8>,
    line: &StepLine,
    text: &[u8],
) -> Result<(), AllocError>
    ensures { OnOk result (report.new.items ≡ report.old.items ++ shown line.now text.now) }
{
    if text.is_empty() {
        return push(report, b"not reached");
    }
    let end = line_end(text);
    push(report, without_front(&text[..end], head_length(line)))?;
    push_further(report, digits(line.number), without_front(text, end + 1))
}

// Appends the lines of a schedule.
fn push_order(report: &mut Vec<u8>, order: &[u32]) -> Result<(), AllocError>
    ensures { OnOk result (report.new.items ≡ report.old.items ++ order_text order.now) }
{
    for number in order {
        push(report, b" ")?;
        push_number(report, *number)?;
    }
    Ok(())
}

// Appends the word after a number of schedules.
fn push_schedules(report: &mut Vec<u8>, number: u32) -> Result<(), AllocError>
    ensures { OnOk result (report.new.items ≡ report.old.items ++ schedules_word number) }
{
    if number == 1 {
        push(report, b" schedule")
    } else {
        push(report, b" schedules")
    }
}

// Appends the first answer of a statement.
fn push_first_row(
    report: &mut Vec<u8>,
    line: &StepLine,
    step: &StepSchedules,
    row: &Row,
) -> Result<(), AllocError>
    ensures { OnOk result
        (report.new.items ≡ report.old.items ++ row_text line.now step.now true row.now) }
{
    push_answer(report, line, row.answer.text())?;
    push(report, b" in ")?;
    push_number(report, row.count)?;
    push(report, b" of ")?;
    push_number(report, step.tally.schedules)?;
    push_schedules(report, step.tally.schedules)
}

// Appends a further answer of a statement.
fn push_further_row(
    report: &mut Vec<u8>,
    line: &StepLine,
    step: &StepSchedules,
    row: &Row,
) -> Result<(), AllocError>
    ensures { OnOk result
        (report.new.items ≡ report.old.items ++ row_text line.now step.now false row.now) }
{
    push(report, b"; ")?;
    push_answer(report, line, row.answer.text())?;
    push(report, b" in ")?;
    push_number(report, row.count)?;
    push(report, b", first: ")?;
    push_number(report, step.line_number)?;
    push_order(report, &row.first)
}

// Appends an answer: the first of its statement, or a further one.
fn push_row(
    report: &mut Vec<u8>,
    line: &StepLine,
    step: &StepSchedules,
    first: bool,
    row: &Row,
) -> Result<(), AllocError>
    ensures { OnOk result
        (report.new.items ≡ report.old.items ++ row_text line.now step.now first row.now) }
{
    if first {
        push_first_row(report, line, step, row)
    } else {
        push_further_row(report, line, step, row)
    }
}

// Appends the answers of a statement.
fn push_rows(report: &mut Vec<u8>, line: &StepLine, step: &StepSchedules) -> Result<(), AllocError>
    ensures { OnOk result
        (report.new.items
        ≡ report.old.items ++ rows_text line.now step.now true step.now.tally.rows.items) }
{
    let mut first = true;
    for row in &step.tally.rows {
        if row.answer.line_number() == line.number {
            push_row(report, line, step, first, row)?;
            first = false;
        }
    }
    Ok(())
}

// Appends a statement as it is in the script, and blanks after it.
fn push_statement(report: &mut Vec<u8>, line: &StepLine) -> Result<(), AllocError>
    ensures { OnOk result (report.new.items ≡ report.old.items ++ statement_text line.now) }
{
    push_number(report, line.number)?;
    push(report, b" ")?;
    push(report, &line.bytes)?;
    push(
        report,
        without_front(b"                              ", line.bytes.len()),
    )?;
    push(report, b" ")
}

/// Returns the step that began last, if this number of steps have begun.
pub(crate) fn step_of(steps: &[StepSchedules], begun: usize) -> Option<&StepSchedules>
    ensures { MatchOption result (step_of steps.now begun ≡ None) (λ step. step_of steps.now begun ≡ Some step.now) }
{
    if begun == 0 {
        return None;
    }
    steps.get(begun - 1)
}

// Appends a statement and its answers.
fn push_line(
    report: &mut Vec<u8>,
    line: &StepLine,
    steps: &[StepSchedules],
    begun: usize,
) -> Result<(), AllocError>
    ensures { OnOk result
        (report.new.items ≡ report.old.items ++ line_report line.now (step_of steps.now begun)) }
{
    let Some(step) = step_of(steps, begun) else {
        return Ok(());
    };
    push_statement(report, line)?;
    push_rows(report, line, step)?;
    push(report, b"\n")
}

// Appends how many schedules there may be, where the search stopped.
fn push_orders(alloc: Global, report: &mut Vec<u8>, orders: Option<u64>) -> Result<(), AllocError>
    ensures { OnOk result (report.new.items ≡ report.old.items ++ orders_text orders) }
{
    let Some(orders) = orders else {
        return push(report, b"; there are more than 18446744073709551615 orders");
    };
    push(report, b" of at most ")?;
    push_wide(alloc, report, orders)?;
    push(report, b" orders")
}

// Appends a number of outcomes.
fn push_outcomes(report: &mut Vec<u8>, number: u32) -> Result<(), AllocError>
    ensures { OnOk result (report.new.items ≡ report.old.items ++ outcomes_text number) }
{
    push_number(report, number)?;
    if number == 1 {
        push(report, b" outcome")
    } else {
        push(report, b" outcomes")
    }
}

// Appends the number of schedules of a step, all of which were run, and of their outcomes.
fn push_whole(report: &mut Vec<u8>, step: &StepSchedules) -> Result<(), AllocError>
    ensures { OnOk result (report.new.items ≡ report.old.items ++ step_text true step.now) }
{
    push_number(report, step.tally.schedules)?;
    push_schedules(report, step.tally.schedules)?;
    push(report, b", ")?;
    push_outcomes(report, step.tally.outcomes)?;
    push(report, b"\n")
}

// Appends the number of schedules of a step that were run, of orders, and of the outcomes so far.
fn push_part(alloc: Global, report: &mut Vec<u8>, step: &StepSchedules) -> Result<(), AllocError>
    ensures { OnOk result (report.new.items ≡ report.old.items ++ step_text false step.now) }
{
    push(report, b"stopped after ")?;
    push_number(report, step.tally.schedules)?;
    push_schedules(report, step.tally.schedules)?;
    push_orders(alloc, report, step.orders)?;
    push(report, b"; ")?;
    push_outcomes(report, step.tally.outcomes)?;
    push(report, b" so far\n")
}

// Appends the number of schedules of a step and of their outcomes, and whether there are more.
fn push_foot(
    alloc: Global,
    report: &mut Vec<u8>,
    steps: &[StepSchedules],
    begun: usize,
) -> Result<(), AllocError>
    ensures { OnOk result (report.new.items ≡ report.old.items ++ foot_text (step_of steps.now begun)) }
{
    let Some(step) = step_of(steps, begun) else {
        return Ok(());
    };
    if step.is_whole {
        push_whole(report, step)
    } else {
        push_part(alloc, report, step)
    }
}

// Appends the reports of all steps.
fn push_steps(
    alloc: Global,
    report: &mut Vec<u8>,
    lines: &[StepLine],
    steps: &[StepSchedules],
) -> Result<(), AllocError>
    ensures { OnOk result (report.new.items ≡ report.old.items ++ report_from steps.now 0 lines.now) }
{
    let mut begun = 0;
    for line in lines {
        if line.is_region {
            push_foot(alloc, report, steps, begun)?;
            begun += 1;
        } else {
            push_line(report, line, steps, begun)?;
        }
    }
    push_foot(alloc, report, steps, begun)
}

/// Writes the report of the schedules of a script. It fails if memory is exhausted.
pub fn text_report(alloc: Global, explored: &Explored) -> Result<Vec<u8>, AllocError>
    ensures { IfOk result
        (λ report. report.items ≡ report_from explored.now.steps.items 0 explored.now.lines.items) }
{
    let mut report = Vec::new(alloc);
    push_steps(alloc, &mut report, &explored.lines, &explored.steps)?;
    Ok(report)
}

// Returns whether a row is of a further answer to a statement that has one among some rows.
fn is_further(rows: &[Row], row: &Row) -> bool
    ensures { result ≡ is_further rows.now row.now }
{
    let number = row.answer.line_number();
    rows.iter()
        .any(|other| other.answer.line_number() == number)
}

// Returns whether a statement has two answers.
fn has_two(rows: &[Row]) -> bool
    ensures { result ≡ has_two rows.now }
{
    let mut at = 0;
    'rows: while at < rows.len() {
        if is_further(&rows[at + 1..], &rows[at]) {
            return true;
        }
        at += 1;
    }
    false
}

// Returns whether not all schedules of a step were run.
fn is_part(step: &StepSchedules) -> bool
    ensures { result ≡ is_part step.now }
{
    !step.is_whole
}

// Returns whether a step has a statement with two answers.
fn varies(step: &StepSchedules) -> bool
    ensures { result ≡ step_varies step.now }
{
    has_two(&step.tally.rows)
}

// Returns whether not all schedules of some step were run.
fn any_is_part(steps: &[StepSchedules]) -> bool
    ensures { result ≡ list_any is_part steps.now }
{
    steps.iter().any(|step| is_part(step))
}

// Returns whether some step has a statement with two answers.
fn any_varies(steps: &[StepSchedules]) -> bool
    ensures { result ≡ list_any step_varies steps.now }
{
    steps.iter().any(|step| varies(step))
}

/// Returns what the tables of the steps of a script show.
pub fn verdict_of(steps: &[StepSchedules]) -> Verdict
    ensures { result ≡ verdict_of steps.now }
{
    if any_is_part(steps) {
        Verdict::Stopped
    } else if any_varies(steps) {
        Verdict::Varies
    } else {
        Verdict::Same
    }
}
