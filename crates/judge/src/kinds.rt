//! What the lines of a script can be granted, and which WHERE statements show it.

ghost use Rattle.std.specs.Prelude.{◌≡◌, ◌≢◌, ◌≤◌, ◌↔◌, ◌+◌, ◌∷◌, List, ℕ, IsTrue, length, drop, take, true, MatchOption};
ghost use Rattle.std.specs.List.{AllByRecursion};
ghost use Rattle.mvs_model.specs.Lines.{lines_of};
ghost use Rattle.mvs_model.specs.Walk.{is_first};
ghost use Rattle.judge.specs.Deciding.{HasNoQuestion, IsKind, IsKindOf, IsParsed};
ghost use Rattle.judge.specs.Judging.{AreApart, AskEach, IsQuestion, may_grant};

use job_script::read_line;
use mvs_job::{Walk, line_end};
use mvs_model::line::{Fault, Line, Names, SourceRequest, Statement};
use mvs_model::name::Name;

/// What a line can be granted.
#[derive(Drop)]
pub enum GrantKind {
    /// No place.
    Closed,
    /// An area of a task, which sets a name, by a request that is variable or not.
    Area(Name, Name, bool),
    /// Areas of a task with different names.
    Areas(Name, Names),
    /// A cell, the parts of a pool, or areas that set a name twice.
    Several,
}

/// A task asks for an area, which sets a name, by a request that is variable or not.
#[derive(Clone, Copy, Debug, PartialEq, Eq)]
pub struct GrantQuestion {
    pub task: Name,
    pub area: Name,
    pub variable: bool,
}

// Returns whether a request may be granted places.
fn may_grant(written: &SourceRequest) -> bool
    ensures { result ≡ may_grant written.now }
{
    matches!(
        written,
        SourceRequest::Obtain { .. }
            | SourceRequest::ObtainList { .. }
            | SourceRequest::Build { .. }
            | SourceRequest::Get { .. }
    )
}

// Returns whether a name is none of some names.
fn is_none_of(name: &Name, others: &[Name]) -> bool
    ensures { IsTrue result ↔ AllByRecursion (λ other. name.now ≢ other) others.now }
{
    let Some((other, others)) = others.split_first() else {
        return true;
    };
    *name != *other && is_none_of(name, others)
}

// Returns whether no two of some names are the same.
fn are_apart(names: &[Name]) -> bool
    ensures { IsTrue result ↔ AreApart names.now }
{
    let Some((name, names)) = names.split_first() else {
        return true;
    };
    is_none_of(name, names) && are_apart(names)
}

// Returns the kind of a line.
fn kind_of(read: &Line) -> GrantKind
    ensures { IsKindOf read.now result }
{
    match read {
        Line::Statement(task, Statement::Request(SourceRequest::Obtain { area, variable, .. })) => {
            GrantKind::Area(*task, *area, *variable)
        }
        Line::Statement(
            task,
            Statement::Request(SourceRequest::ObtainList { lengths, areas, .. }),
        ) => {
            if lengths.len() == areas.len() && are_apart(areas.as_slice()) {
                GrantKind::Areas(*task, areas.copied())
            } else {
                GrantKind::Several
            }
        }
        Line::Statement(_, Statement::Request(written)) => {
            if may_grant(written) {
                GrantKind::Several
            } else {
                GrantKind::Closed
            }
        }
        Line::Statement(
            _,
            Statement::Region { .. }
            | Statement::Where(_)
            | Statement::ReportSubpools
            | Statement::ReportMap,
        ) => GrantKind::Closed,
        Line::Nothing => GrantKind::Closed,
    }
}

// Returns whether no step has begun.
pub(crate) fn is_first(walk: &Walk) -> bool
    ensures { result ≡ is_first walk.now.step }
{
    walk.job().is_none()
}

/// Returns the kind of the line that a job has parsed last. Parsing has returned this.
pub fn parsed_kind(walk: &Walk, parsed: &Result<(), Fault>) -> GrantKind
    ensures { (line : List ℕ) → IsParsed walk.now parsed.now line → IsKind walk.now.step line result }
{
    match parsed {
        Ok(()) => kind_of(walk.read()),
        Err(_) => GrantKind::Closed,
    }
}

// Returns whether a line is a WHERE of a task for a name.
fn asks_where(line: &[u8], task: &Name, area: &Name) -> bool
    ensures yes { result ≡ true → IsQuestion line.now task.now area.now }
    ensures no { IsQuestion line.now task.now area.now → result ≡ true }
{
    let mut read = Line::Nothing;
    if read_line(line, false, &mut read).is_err() {
        return false;
    }
    match &read {
        Line::Statement(asking, Statement::Where(name)) => *asking == *task && *name == *area,
        Line::Statement(
            _,
            Statement::Region { .. }
            | Statement::Request(_)
            | Statement::ReportSubpools
            | Statement::ReportMap,
        ) => false,
        Line::Nothing => false,
    }
}

/// Returns where the first line of a script ends, if it is a WHERE.
pub fn question_end(script: &[u8], asked: &GrantQuestion) -> Option<usize>
    ensures { MatchOption result
        (HasNoQuestion (lines_of script.now) asked.now.task asked.now.area)
        (λ end. (end ≤ length script.now)
        × (lines_of script.now ≡ take end script.now ∷ lines_of (drop (end + 1) script.now))
        × IsQuestion (take end script.now) asked.now.task asked.now.area) }
{
    if script.is_empty() {
        return None;
    }
    let end = line_end(script);
    if asks_where(&script[..end], &asked.task, &asked.area) {
        Some(end)
    } else {
        None
    }
}

/// Returns whether the first lines of a script are the WHERE statements of a task for some names, in order.
pub fn asks_each(script: &[u8], task: &Name, areas: &[Name]) -> bool
    ensures { IsTrue result ↔ AskEach (lines_of script.now) task.now areas.now }
{
    let Some((area, areas)) = areas.split_first() else {
        return true;
    };
    if script.is_empty() {
        return false;
    }
    let end = line_end(script);
    if !asks_where(&script[..end], task, area) {
        return false;
    }
    let rest = if end < script.len() {
        &script[end + 1..]
    } else {
        &[]
    };
    asks_each(rest, task, areas)
}
