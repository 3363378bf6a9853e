//! The names that are set before a line, as a run of the document has them.

ghost use Rattle.std.specs.Prelude.{◌≡◌, ◌==◌, ◌<◌, IfOk, IfSome, find, reverse, true};
ghost use Rattle.std.specs.List.{list_any, slice_split};
ghost use Rattle.language_server.specs.Known.{ends_task, is_alike, is_before, is_called, is_end_text, is_end_word, is_ended, is_ended_at, is_granted, is_known, is_made, is_own_end, is_set_again, known_at, known_name, known_names, moment_before, step_in, without_blank};

use crate::document::Document;
use crate::names::{NameKind, Occurrence, names_of, split_blank};
use crate::references::kind_number;
use crate::refusals::is_refused;
use job_script::split_once::split_once;
use std::alloc::{AllocError, Global};

/// A line before which names are known, and the step there.
#[derive(Clone, Copy, Debug)]
pub struct Moment {
    pub before: usize,
    pub step: usize,
}

// Returns the step of a name.
fn step_in(name: Option<Occurrence>) -> usize
    ensures { result ≡ step_in name }
{
    match name {
        Some(name) => name.step,
        None => 0,
    }
}

// Returns whether a name is in a line before one.
fn is_before(line: usize, name: &Occurrence) -> bool
    ensures { result ≡ is_before line name.now }
{
    name.line < line
}

// Returns the last name before a line.
fn last_before(names: &[Occurrence], line: usize) -> Option<Occurrence>
    ensures { result ≡ find (is_before line) (reverse names.now) }
{
    names
        .iter()
        .rev()
        .copied()
        .find(|name| is_before(line, name))
}

/// Returns the moment before a line, by the number of the lines before it.
pub(crate) fn moment_before(names: &[Occurrence], before: usize) -> Moment
    ensures { result ≡ moment_before names.now before }
{
    Moment {
        before,
        step: step_in(last_before(names, before)),
    }
}

// Returns whether a line was executed, and its request was not refused.
fn is_granted(answer: &[u8]) -> bool
    ensures { result ≡ is_granted answer.now }
{
    !answer.is_empty() && !is_refused(answer)
}

// Returns whether two names are of the same kind, with the same bytes.
fn is_alike(text: &[u8], name: &Occurrence, other: &Occurrence) -> bool
    ensures { result ≡ is_alike text.now name.now other.now }
{
    kind_number(name.kind) == kind_number(other.kind) && name.span.of(text) == other.span.of(text)
}

// Returns whether a name is of a kind, and has some bytes.
fn is_called(text: &[u8], kind: NameKind, bytes: &[u8], name: &Occurrence) -> bool
    ensures { result ≡ is_called text.now kind bytes.now name.now }
{
    kind_number(kind) == kind_number(name.kind) && name.span.of(text) == bytes
}

// ---- the ends of tasks

/// Returns a text without the blank with which it begins.
pub(crate) fn without_blank(text: &[u8]) -> &[u8]
    ensures { result.now ≡ without_blank text.now }
{
    text.strip_prefix(b" ").unwrap_or(text)
}

// Returns whether a text is `NAME ENDED WITH ..` of a task.
fn is_end_word(task: &[u8], text: &[u8]) -> bool
    ensures { result ≡ is_end_word task.now text.now }
{
    let (name, rest) = split_blank(text);
    name == task && rest.starts_with(b"ENDED WITH ")
}

// Returns whether a text of an answer is that of the end of a task.
fn is_end_text(task: &[u8], text: &[u8]) -> bool
    ensures { result ≡ is_end_text task.now text.now }
{
    is_end_word(task, without_blank(text))
}

// Returns whether an answer is that of the end of the task of its line.
fn is_own_end(answer: &[u8]) -> bool
    ensures { result ≡ is_own_end answer.now }
{
    answer.starts_with(b"ENDED") || answer.starts_with(b"ABEND ")
}

// Returns whether one of the texts of an answer is that of the end of a task.
fn has_end_text(task: &[u8], answer: &[u8]) -> bool
    ensures { result
        ≡ list_any (is_end_text task.now) (slice_split (λ b. b == 47) answer.now) }
{
    let mut rest = answer;
    'texts: loop {
        let (text, more) = split_once(rest, b'/');
        if is_end_text(task, text) {
            return true;
        }
        match more {
            Some(next) => rest = next,
            None => return false,
        }
    }
}

// Returns whether a task ends with a line, by its answer.
fn ends_task(task: &[u8], line: &[u8], answer: &[u8]) -> bool
    ensures { result ≡ ends_task task.now line.now answer.now }
{
    let (own, _) = split_once(line, b' ');
    is_own_end(answer) && own == task || has_end_text(task, answer)
}

impl Document {
    // Returns whether a name is set before a line, in its step.
    fn is_made(&self, moment: Moment, name: &Occurrence) -> bool
        ensures { result ≡ is_made self.now moment name.now }
    {
        name.line < moment.before
            && (name.is_set && (name.step == moment.step && is_granted(self.answer(name.line))))
    }

    // Returns whether a name is set again before a line.
    fn is_set_again(&self, moment: Moment, name: &Occurrence, later: &Occurrence) -> bool
        ensures { result ≡ is_set_again self.now moment name.now later.now }
    {
        name.span.start < later.span.start
            && (self.is_made(moment, later) && is_alike(&self.text, name, later))
    }

    // Returns whether a task ended in the line of another name, after it was begun.
    fn is_ended_at(&self, moment: Moment, name: &Occurrence, later: &Occurrence) -> bool
        ensures { result ≡ is_ended_at self.now moment name.now later.now }
    {
        name.line < later.line
            && (later.line < moment.before
                && ends_task(
                    name.span.of(&self.text),
                    self.line(later.line),
                    self.answer(later.line),
                ))
    }

    // Returns whether a name is set again before a line, by one of some names.
    fn is_replaced(&self, names: &[Occurrence], moment: Moment, name: &Occurrence) -> bool
        ensures { result ≡ list_any (is_set_again self.now moment name.now) names.now }
    {
        names
            .iter()
            .any(|later| self.is_set_again(moment, name, later))
    }

    // Returns whether a task ended before a line, in the line of one of some names.
    fn has_end(&self, names: &[Occurrence], moment: Moment, name: &Occurrence) -> bool
        ensures { result ≡ list_any (is_ended_at self.now moment name.now) names.now }
    {
        names
            .iter()
            .any(|later| self.is_ended_at(moment, name, later))
    }

    // Returns whether a name is a task that ended before a line.
    fn is_ended(&self, names: &[Occurrence], moment: Moment, name: &Occurrence) -> bool
        ensures { result ≡ is_ended self.now names.now moment name.now }
    {
        kind_number(name.kind) == 1 && self.has_end(names, moment, name)
    }

    /// Returns whether a name is known before a line.
    pub(crate) fn is_known(&self, names: &[Occurrence], moment: Moment, name: &Occurrence) -> bool
        ensures exact { result ≡ is_known self.now names.now moment name.now }
        ensures bound { result ≡ true → name.now.line < moment.before }
    {
        self.is_made(moment, name)
            && (!self.is_replaced(names, moment, name) && !self.is_ended(names, moment, name))
    }

    /// Returns the names that are known at a moment.
    pub(crate) fn known_names(
        &self,
        alloc: Global,
        names: &[Occurrence],
        moment: Moment,
    ) -> Result<Vec<Occurrence>, AllocError>
        ensures { IfOk result (λ known. known.items ≡ known_names self.now names.now moment) }
    {
        names
            .iter()
            .copied()
            .filter(|name| self.is_known(names, moment, name))
            .collect(alloc)
    }

    // Returns the name of a kind that is known at a moment, with some bytes.
    fn known_at(
        &self,
        names: &[Occurrence],
        moment: Moment,
        kind: NameKind,
        bytes: &[u8],
    ) -> Option<Occurrence>
        ensures { result ≡ known_at self.now names.now moment kind bytes.now }
    {
        names.iter().copied().find(|name| {
            is_called(&self.text, kind, bytes, name) && self.is_known(names, moment, name)
        })
    }

    /// Returns the name of a kind that is known before a line, with some bytes.
    pub(crate) fn known_name(
        &self,
        names: &[Occurrence],
        before: usize,
        kind: NameKind,
        bytes: &[u8],
    ) -> Option<Occurrence>
        ensures exact { result ≡ known_name self.now names.now before kind bytes.now }
        ensures bound { IfSome result (λ name. name.line < before) }
    {
        self.known_at(names, moment_before(names, before), kind, bytes)
    }
}
