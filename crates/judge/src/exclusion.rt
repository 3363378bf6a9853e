//! Looks for a line at which no run of a script prints an output, wherever its places are.

ghost use Rattle.std.specs.Prelude.{◌≡◌, ◌<◌, ◌≤◌, ◌+◌, ◌^◌, ◌&&◌, ℕ, List, Ok, IfOk, if◌then◌else◌, length};
ghost use Rattle.mvs_model.specs.declared.name.Name.{Name as TaskName};
ghost use Rattle.mvs_model.specs.declared.line.Fault.{Fault as LineFault};
ghost use Rattle.mvs_model.specs.Numbers.{most_script_bytes};
ghost use Rattle.mvs_model.specs.Reading.{FaultOf, LineOf};
ghost use Rattle.mvs_model.specs.State.{State};
ghost use Rattle.mvs_model.specs.Walk.{is_first};
ghost use Rattle.judge.specs.Deciding.{InBounds};
ghost use Rattle.judge.specs.Excluding.{IsBegunLine, IsRuling, IsVerdict, LineShowsSome, answer_in, is_certain, is_shown};

use crate::certain::is_settled;
use crate::deciding::{begins, print_next, text_after};
use crate::following::print_end;
use crate::kinds::is_first;
use crate::maps::ends_map;
use crate::openings::{Continued, begins_open};
use crate::reports::differs_in_report;
use crate::shapes::differs_in_shape;
use job_script::read_line;
use mvs_job::{AddressHints, LineEvent, Walk, line_end};
use mvs_model::error::OutOfMemory;
use mvs_model::line::{Line, SourceRequest, Statement};
use mvs_model::outcome::Outcome;
use mvs_model::place::Addr;
use mvs_model::want::Placement;
use std::alloc::Global;

/// What a line prints of an output.
#[derive(Clone, Copy, Debug, PartialEq, Eq)]
pub enum LineVerdict {
    /// It prints the next bytes of it, this number, and so does each run that prints the output.
    Agrees(usize),
    /// No run prints it.
    Excluded,
    /// It prints all that is left, and the job ends with a fault.
    Ends,
    /// Places decide what it prints, and the output has an answer that the line can have.
    Undecided,
}

/// What is known of an output, once it was compared with one run of the script.
#[derive(Clone, Copy, Debug, PartialEq, Eq)]
pub enum Ruling {
    /// No run prints it.
    Excluded,
    /// That run prints it, and ends so.
    Printed(Outcome),
    /// They part at a line whose answer places decide, and the output has an answer that the line can have.
    Undecided,
}

// Returns whether places do not decide what a line prints.
fn is_certain(read: &Line, line_event: &LineEvent) -> bool
    ensures { (st : State) (fallen : List TaskName)
        → result ≡ is_certain read.now (answer_in st fallen line_event.now) }
{
    match read {
        Line::Nothing => true,
        Line::Statement(_, Statement::Region { .. }) => true,
        Line::Statement(_, statement) => match line_event {
            LineEvent::Answered { answer, .. } => is_settled(statement, answer),
            LineEvent::Nothing | LineEvent::StepBegan { .. } | LineEvent::Faulted(_) => true,
        },
    }
}

// Returns whether a line is a request, a WHERE or a REPORT SP: then the text that it prints shows its answer.
fn is_shown(read: &Line) -> bool
    ensures shown { result ≡ is_shown read.now }
    ensures some { LineShowsSome read.now }
{
    match read {
        Line::Statement(_, Statement::Request(SourceRequest::Show { len, .. })) => len.get() > 0,
        Line::Statement(
            _,
            Statement::Request(_) | Statement::Where(_) | Statement::ReportSubpools,
        ) => true,
        Line::Statement(_, Statement::Region { .. } | Statement::ReportMap) => false,
        Line::Nothing => false,
    }
}

// Returns whether an output continues with an answer that a line can have, where places decide it.
fn begins_line(
    alloc: Global,
    line_number: u32,
    read: &Line,
    left: &[u8],
) -> Result<bool, OutOfMemory>
    ensures { IfOk result (IsBegunLine line_number read.now left.now) }
{
    match read {
        Line::Nothing => Ok(true),
        Line::Statement(task, statement) => {
            let continued = Continued {
                line_number,
                task: *task,
                text: left,
            };
            begins_open(alloc, &continued, statement)
        }
    }
}

// Returns the verdict at a line that every run prints alike.
fn verdict_if(passes: bool, len: usize) -> LineVerdict
    ensures { result ≡ (if passes then LineVerdict.Agrees len else LineVerdict.Excluded) }
{
    if passes {
        LineVerdict::Agrees(len)
    } else {
        LineVerdict::Excluded
    }
}

// Returns the verdict at a line whose answer places decide, and that prints something else.
fn undecided_if(is_possible: bool) -> LineVerdict
    ensures { result ≡ (if is_possible then LineVerdict.Undecided else LineVerdict.Excluded) }
{
    if is_possible {
        LineVerdict::Undecided
    } else {
        LineVerdict::Excluded
    }
}

// Returns whether both tests hold.
fn both(one: bool, other: bool) -> bool
    ensures { result ≡ (one && other) }
{
    one && other
}

// Compares a line without a fault with an output.
fn compare_read(
    alloc: Global,
    walk: &mut Walk,
    line: &[u8],
    hints: &[Addr],
    left: &[u8],
    read: &Line,
) -> Result<LineVerdict, OutOfMemory>
    requires number { walk.old.number + 1 < 2 ^ 32 }
    requires bounds { InBounds walk.old.step }
    requires read { LineOf (is_first walk.old.step) line.now read.now }
    ensures verdict { IfOk result (IsVerdict walk.old line.now left.now walk.new) }
    ensures number { walk.new.number ≡ walk.old.number + 1 }
    ensures bounds { IfOk result (λ v. InBounds walk.new.step) }
{
    let line_number = walk.number();
    let printed = print_next(walk, line, hints, Vec::new(alloc))?;
    let passes = begins(left, printed.text.as_slice());
    let len = printed.text.as_slice().len();
    let is_shown = is_shown(read);
    if is_certain(read, &printed.line_event) {
        return Ok(verdict_if(passes, len));
    }
    let agrees = both(passes, is_shown);
    if agrees {
        return Ok(LineVerdict::Agrees(len));
    }
    let is_whole = ends_map(alloc, line_number, read, text_after(left, len))?;
    let passes_map = both(passes, is_whole);
    if passes_map {
        return Ok(LineVerdict::Agrees(len));
    }
    let is_other = differs_in_report(read, printed.text.as_slice(), left);
    if is_other {
        return Ok(LineVerdict::Excluded);
    }
    let is_unlike = differs_in_shape(alloc, line_number, read, printed.text.as_slice(), left)?;
    if is_unlike {
        return Ok(LineVerdict::Excluded);
    }
    let is_possible = begins_line(alloc, line_number, read, left)?;
    Ok(undecided_if(is_possible))
}

// Returns the verdict at a line with a fault.
fn ends_if(is_same: bool) -> LineVerdict
    ensures { result ≡ (if is_same then LineVerdict.Ends else LineVerdict.Excluded) }
{
    if is_same {
        LineVerdict::Ends
    } else {
        LineVerdict::Excluded
    }
}

// Compares a line with a fault with an output.
fn compare_fault(
    alloc: Global,
    walk: &mut Walk,
    line: &[u8],
    left: &[u8],
) -> Result<LineVerdict, OutOfMemory>
    requires number { walk.old.number + 1 < 2 ^ 32 }
    requires bounds { InBounds walk.old.step }
    requires fault { (fault : LineFault) × FaultOf (is_first walk.old.step) line.now fault }
    ensures verdict { IfOk result (IsVerdict walk.old line.now left.now walk.new) }
    ensures number { walk.new.number ≡ walk.old.number + 1 }
    ensures bounds { IfOk result (λ v. InBounds walk.new.step) }
{
    let printed = print_next(walk, line, &[], Vec::new(alloc))?;
    let is_same = left == printed.text.as_slice();
    Ok(ends_if(is_same))
}

// Compares a line with an output.
fn compare_line(
    alloc: Global,
    walk: &mut Walk,
    line: &[u8],
    hints: &[Addr],
    left: &[u8],
) -> Result<LineVerdict, OutOfMemory>
    requires number { walk.old.number + 1 < 2 ^ 32 }
    requires bounds { InBounds walk.old.step }
    ensures verdict { IfOk result (IsVerdict walk.old line.now left.now walk.new) }
    ensures number { walk.new.number ≡ walk.old.number + 1 }
    ensures bounds { IfOk result (λ v. InBounds walk.new.step) }
{
    let mut read = Line::Nothing;
    match read_line(line, is_first(walk), &mut read) {
        Ok(()) => compare_read(alloc, walk, line, hints, left, &read),
        Err(_) => compare_fault(alloc, walk, line, left),
    }
}

// Returns the ruling at the end of a script.
fn ruling_if(is_same: bool, outcome: Outcome) -> Ruling
    ensures { result ≡ (if is_same then Ruling.Printed outcome else Ruling.Excluded) }
{
    if is_same {
        Ruling::Printed(outcome)
    } else {
        Ruling::Excluded
    }
}

/// Compares an output with a run of its script that uses these hints, and this placement, up to the first line at which they differ.
pub fn rule(
    alloc: Global,
    script: &[u8],
    output: &[u8],
    hints: &AddressHints,
    placement: Placement,
) -> Result<Ruling, OutOfMemory>
    requires short { length script.now ≤ most_script_bytes }
    ensures { IfOk result (IsRuling script.now output.now) }
{
    let mut walk = Walk::new(alloc, placement);
    let mut left = output;
    let mut at = 0;
    'lines: while at < script.len() {
        let rest = &script[at..];
        let end = line_end(rest);
        let line_hints = hints.of(walk.number());
        let verdict = compare_line(alloc, &mut walk, &rest[..end], line_hints, left)?;
        match verdict {
            LineVerdict::Agrees(len) => {
                at += end + 1;
                left = text_after(left, len);
            }
            LineVerdict::Excluded => return Ok(Ruling::Excluded),
            LineVerdict::Ends => return Ok(Ruling::Printed(Outcome::ScriptFault)),
            LineVerdict::Undecided => return Ok(Ruling::Undecided),
        }
    }
    let (outcome, last) = print_end(alloc, &walk)?;
    let is_same = left == last.as_slice();
    Ok(ruling_if(is_same, outcome))
}
