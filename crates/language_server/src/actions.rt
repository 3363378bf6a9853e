//! Code actions: the word that is meant, the answer of a line, the release of an area that leaked.

ghost use Rattle.std.specs.Prelude.{◌≡◌, ◌&&◌, ◌++◌, IfOk, OnOk, nat_le, option_map, string_bytes, true};
ghost use Rattle.expected_answers.specs.ExpectedAnswers.{answers_in};
ghost use Rattle.language_server.specs.Actions.{is_answer, is_unwritten, statement_length, writing, writings_from, writings_in};
ghost use Rattle.language_server.specs.Answers.{AreActions};

use crate::document::Document;
use crate::plain_text::{writing_title, written_text};
use crate::span::Span;
use expected_answers::{ARROW, parted_at, trimmed};
use std::alloc::{AllocError, Global};
use std::marker::Model;

/// An action that an editor offers: the text with which it replaces some bytes.
#[derive(Drop)]
pub struct Action {
    title: String,
    span: Span,
    text: String,
    is_fix: bool,
}

impl Model for Action {
    ghost use Rattle.std.specs.Prelude.{string_bytes};
    ghost use Rattle.language_server.specs.Actions.{ActionValue};

    ghost Value = { ActionValue };

    ghost view = { λ a. record {
      title = string_bytes a.title;
      span = a.span;
      text = string_bytes a.text;
      is_fix = a.is_fix;
    } };
}

impl Action {
    /// Makes one that mends what a diagnostic reports.
    pub(crate) fn fix(title: String, span: Span, text: String) -> Action
        ensures { result ≡ record { title = string_bytes title; span = span; text = string_bytes text; is_fix = true } }
    {
        Action {
            title,
            span,
            text,
            is_fix: true,
        }
    }

    /// Returns its title.
    pub fn title(&self) -> &str
        ensures { result.now ≡ self.now.title }
    {
        &self.title
    }

    /// Returns the bytes that it changes.
    pub fn span(&self) -> Span
        ensures { result ≡ self.now.span }
    {
        self.span
    }

    /// Returns what it writes in their place.
    pub fn new_text(&self) -> &str
        ensures { result.now ≡ self.now.text }
    {
        &self.text
    }

    /// Returns whether it mends what a diagnostic reports.
    pub fn is_fix(&self) -> bool
        ensures { result ≡ self.now.is_fix }
    {
        self.is_fix
    }
}

/// Returns the number of the bytes of a line before its arrow.
pub(crate) fn statement_length(line: &[u8]) -> usize
    ensures { result ≡ statement_length line.now }
{
    let (statement, _) = parted_at(line, ARROW);
    statement.len()
}

/// Returns what is after the arrow of a line.
pub(crate) fn answers_in(line: &[u8]) -> Option<&[u8]>
    ensures { option_map (λ text. text.now) result ≡ answers_in line.now }
{
    let (_, rest) = parted_at(line, ARROW);
    Some(trimmed(rest?))
}

// Returns whether what is after the arrow of a line is an answer.
fn is_written(line: &[u8], answer: &[u8]) -> bool
    ensures { result ≡ is_answer (answers_in line.now) answer.now }
{
    match answers_in(line) {
        Some(written) => written == answer,
        None => false,
    }
}

// Returns whether a line has an answer, which is not after its arrow.
fn is_unwritten(line: &[u8], answer: &[u8]) -> bool
    ensures { result ≡ is_unwritten line.now answer.now }
{
    !answer.is_empty() && !is_written(line, answer)
}

// Returns whether a line is one of some lines.
fn is_between(first: usize, line: usize, last: usize) -> bool
    ensures { result ≡ nat_le first line && nat_le line last }
{
    first <= line && line <= last
}

impl Document {
    // Returns the action that writes the answer of a line after its statement.
    fn writing(&self, alloc: Global, number: usize, answer: &[u8]) -> Result<Action, AllocError>
        ensures { IfOk result (λ action. action ≡ writing self.now.text number answer.now) }
    {
        let start = self.start(number);
        let span = Span {
            start: start.saturating_add(statement_length(self.line(number))),
            end: self.end(number),
        };
        Ok(Action {
            title: writing_title(alloc, answer)?,
            span: self.within(span),
            text: written_text(alloc, answer)?,
            is_fix: false,
        })
    }

    // Adds the action that writes the answer of a line, if it is asked for, and the answer is not there yet.
    fn push_writing(
        &self,
        alloc: Global,
        actions: &mut Vec<Action>,
        is_asked: bool,
        number: usize,
        answer: &[u8],
    ) -> Result<(), AllocError>
        ensures { OnOk result (actions.new.items ≡ actions.old.items
            ++ writings_in is_asked self.now.text number answer.now) }
    {
        if is_asked && is_unwritten(self.line(number), answer) {
            actions.push(self.writing(alloc, number, answer)?)?;
        }
        Ok(())
    }

    // Adds the actions that write the answers of these lines.
    fn add_writings(
        &self,
        alloc: Global,
        actions: &mut Vec<Action>,
        first: usize,
        last: usize,
    ) -> Result<(), AllocError>
        ensures { OnOk result (actions.new.items ≡ actions.old.items
            ++ writings_from self.now.text 0 first last self.now.outputs) }
    {
        for (line, output) in self.outputs.iter().enumerate() {
            let is_asked = is_between(first, line, last);
            self.push_writing(alloc, actions, is_asked, line, output.answer())?;
        }
        Ok(())
    }

    /// Returns the actions for some bytes: those that mend what diagnostics report, and those that write the answers of their lines.
    pub fn actions(&self, alloc: Global, span: Span) -> Result<Vec<Action>, AllocError>
        ensures { IfOk result (λ actions. AreActions self.now span actions.items) }
    {
        let first = self.line_of(span.start);
        let last = self.line_of(span.end);
        let notes = self.notes(alloc)?;
        let mut actions = self.fixes(alloc, first, last, &notes)?;
        self.add_writings(alloc, &mut actions, first, last)?;
        Ok(actions)
    }
}
