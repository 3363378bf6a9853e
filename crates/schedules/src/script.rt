//! The statements of a script.

ghost use Rattle.std.specs.Prelude.{◌≡◌, ◌≤◌, ◌+◌, true, false, IfErr, IfOk, IfSome, MatchOption, OnOk, length, slice_get, take};
ghost use Rattle.std.specs.List.{AllByRecursion};
ghost use Rattle.mvs_model.specs.declared.line.Line.TheVariants as line;
ghost use Rattle.mvs_model.specs.Lines.{lines_of};
ghost use Rattle.mvs_model.specs.Numbers.{most_script_bytes};
ghost use Rattle.mvs_model.specs.Reading.{LineOf, is_empty};
ghost use Rattle.schedules.specs.Scripts.{AddsLine, AreStepLines, IsStepLine, IsStopped, IsStoppedAt, is_region};

use crate::step_line::StepLine;
use job_script::read_line;
use mvs_job::line_end;
use mvs_model::line::{Fault, Line, Statement};
use std::alloc::Global;
use thiserror::Error;

/// Why the schedules of a script are not searched.
#[derive(Clone, Copy, Debug, PartialEq, Eq, Error)]
pub enum ScheduleError {
    #[error("out of memory")]
    Memory,
    #[error("line {line_number} has a fault")]
    Fault { line_number: u32, fault: Fault },
}

// Returns whether a statement is REGION.
fn is_region(statement: &Statement) -> bool
    ensures { result ≡ is_region statement.now }
{
    match statement {
        Statement::Region { .. } => true,
        Statement::Request(_)
        | Statement::Where(_)
        | Statement::ReportSubpools
        | Statement::ReportMap => false,
    }
}

// Returns whether there are no statements.
fn is_first(found: &[StepLine]) -> bool
    ensures { result ≡ is_empty found.now }
{
    found.is_empty()
}

// Returns the statement on a line, or None if the line is blank or a comment.
fn read_step_line(
    alloc: Global,
    number: u32,
    first: bool,
    bytes: &[u8],
    ignores_addresses: bool,
    read: &mut Line,
) -> Result<Option<StepLine>, ScheduleError>
    ensures read { IfOk result
        (λ found. MatchOption found (LineOf first bytes.now line.Nothing)
        (IsStepLine first number bytes.now)) }
    ensures region { IfOk result
        (λ found. IfSome found (λ l. first ≡ true → l.is_region ≡ true)) }
    ensures addresses { IfOk result
        (λ found. IfSome found (λ l. l.ignores_addresses ≡ ignores_addresses)) }
    ensures stopped { IfErr result (IsStoppedAt first number bytes.now) }
{
    read_line(bytes, first, read).map_err(|fault| ScheduleError::Fault {
        line_number: number,
        fault,
    })?;
    let Line::Statement(task, statement) = &*read else {
        return Ok(None);
    };
    Ok(Some(StepLine {
        number,
        task: *task,
        is_region: is_region(statement),
        ignores_addresses,
        bytes: Vec::from_slice(alloc, bytes).map_err(|_| ScheduleError::Memory)?,
    }))
}

// Adds the statement on a line to those before, if it has one.
fn add_line(
    alloc: Global,
    number: u32,
    bytes: &[u8],
    ignores_addresses: bool,
    found: &mut Vec<StepLine>,
    read: &mut Line,
) -> Result<(), ScheduleError>
    ensures added { OnOk result (AddsLine number bytes.now found.old.items found.new.items) }
    ensures addresses { OnOk result (AllByRecursion (λ l. l.ignores_addresses ≡ ignores_addresses) found.old.items → AllByRecursion (λ l. l.ignores_addresses ≡ ignores_addresses) found.new.items) }
    ensures stopped { IfErr result (IsStoppedAt (is_empty found.old.items) number bytes.now) }
{
    let first = is_first(found);
    let Some(line) = read_step_line(alloc, number, first, bytes, ignores_addresses, read)? else {
        return Ok(());
    };
    found.push(line).map_err(|_| ScheduleError::Memory)?;
    Ok(())
}

/// Returns the statements of a script, with whether their answers are compared without addresses.
pub(crate) fn read_statements(
    alloc: Global,
    script: &[u8],
    ignores_addresses: bool,
) -> Result<Vec<StepLine>, ScheduleError>
    requires { length script.now ≤ most_script_bytes }
    ensures statements { IfOk result
        (λ found. AreStepLines true 1 (lines_of script.now) found.items) }
    ensures region { IfOk result
        (λ found. IfSome (slice_get found.items 0) (λ l. l.is_region ≡ true)) }
    ensures addresses { IfOk result (λ found. AllByRecursion (λ l. l.ignores_addresses ≡ ignores_addresses) found.items) }
    ensures count { IfOk result (λ found. length found.items ≤ length script.now + 1) }
    ensures stopped { IfErr result (IsStopped script.now) }
{
    let mut found = Vec::new(alloc);
    let mut read = Line::Nothing;
    let mut at = 0;
    let mut number = 1;
    'lines: while at < script.len() {
        let rest = &script[at..];
        let end = line_end(rest);
        add_line(
            alloc,
            number,
            &rest[..end],
            ignores_addresses,
            &mut found,
            &mut read,
        )?;
        number += 1;
        at += end + 1;
    }
    Ok(found)
}

/// Returns how many statements come before the first REGION statement.
pub(crate) fn before_region(lines: &[StepLine]) -> usize
    ensures within { result ≤ length lines.now }
    ensures none { AllByRecursion (λ l. l.is_region ≡ false) (take result lines.now) }
    ensures region { IfSome (slice_get lines.now result) (λ l. l.is_region ≡ true) }
{
    for (index, line) in lines.iter().enumerate() {
        if line.is_region {
            return index;
        }
    }
    lines.len()
}
