//! The answers that a script expects, each with what a run printed there.

ghost use Rattle.std.specs.Prelude.{◌≡◌, ◌<◌, ◌≤◌, ◌+◌, ◌^◌, ◌++◌, [], ◌∷◌, List, ℕ, IfOk, IsSome, OnOk, length};
ghost use Rattle.mvs_model.specs.Lines.{lines_of};
ghost use Rattle.expected_answers.specs.ExpectedAnswers.{ExpectedAnswer, expected_answers, expected_at_end, end_in, onto, or_nothing, verdict_of};

use crate::lines::{end_in, next_line, parted_line, trimmed};
use crate::printed::{last_line, take_own};
use job_script::split_once::split_once;
use std::alloc::{AllocError, Global};
use std::marker::Model;

/// What an answer is worth.
#[derive(Clone, Copy, Debug, PartialEq, Eq)]
pub enum AnswerVerdict {
    /// It is what the run printed.
    Right,
    /// The run printed something else.
    Wrong,
    /// It is `?`.
    Open,
    /// Nothing is after the arrow.
    Empty,
}

/// An answer that a script expects in a line, and what a run printed there.
#[derive(Drop)]
pub struct AnswerPair<'a> {
    pub number: u32,
    pub expected: &'a [u8],
    pub got: Vec<u8>,
}

impl<'a> Model for AnswerPair<'a> {
    ghost Value = { ExpectedAnswer };

    ghost view = { λ a. record { number = a.number; expected = a.expected.now; got = a.got.items } };
}

impl AnswerPair<'_> {
    /// Returns what it is worth.
    pub fn verdict(&self) -> AnswerVerdict
        ensures { result ≡ verdict_of self.now }
    {
        if self.expected.is_empty() {
            AnswerVerdict::Empty
        } else if self.expected == b"?".as_slice() {
            AnswerVerdict::Open
        } else if self.expected == self.got.as_slice() {
            AnswerVerdict::Right
        } else {
            AnswerVerdict::Wrong
        }
    }
}

/// The answers of a script from a line on, and what a run printed from there on.
#[derive(Clone, Copy)]
pub struct AnswerPairs<'a> {
    pub script: &'a [u8],
    pub printed: &'a [u8],
    /// The number of the next line.
    pub number: u32,
}

// Returns what the last line of a script asks for, if it is such a comment, by what was printed after its answers.
fn expected_at_end<'a>(
    alloc: Global,
    number: u32,
    line: &'a [u8],
    printed: &[u8],
) -> Result<Option<AnswerPair<'a>>, AllocError>
    ensures { IfOk result
        (λ found. found ≡ expected_at_end number (end_in line.now) (lines_of printed.now)) }
{
    let Some(expected) = end_in(line) else {
        return Ok(None);
    };
    let mut got = Vec::new(alloc);
    got.extend_from_slice(last_line(printed))?;
    Ok(Some(AnswerPair {
        number,
        expected,
        got,
    }))
}

// Returns what a run printed for a statement, by the texts of its lines.
fn or_nothing(mut texts: Vec<u8>) -> Result<Vec<u8>, AllocError>
    ensures { IfOk result (λ got. got.items ≡ or_nothing texts.items) }
{
    if texts.is_empty() {
        texts.extend_from_slice(b"nothing")?;
    }
    Ok(texts)
}

impl<'a> AnswerPairs<'a> {
    /// Returns the answers of a script, and all that a run printed.
    pub fn of(script: &'a [u8], printed: &'a [u8]) -> AnswerPairs<'a>
        ensures script { result.script.now ≡ script.now }
        ensures printed { result.printed.now ≡ printed.now }
        ensures number { result.number ≡ 1 }
    {
        AnswerPairs {
            script,
            printed,
            number: 1,
        }
    }

    // Moves past a line, and returns what it asks for.
    fn step(&mut self, alloc: Global) -> Result<Option<AnswerPair<'a>>, AllocError>
        requires some { 0 < length self.old.script.now }
        requires room { self.old.number + 1 < 2 ^ 32 }
        ensures answers { IfOk result
            (λ found. expected_answers self.old.number (lines_of self.old.script.now) (lines_of self.old.printed.now)
            ≡ onto found (expected_answers self.new.number (lines_of self.new.script.now) (lines_of self.new.printed.now))) }
        ensures number { OnOk result (self.new.number ≡ self.old.number + 1) }
        ensures less { OnOk result (length self.new.script.now < length self.old.script.now) }
    {
        let number = self.number;
        let (line, more) = next_line(self.script);
        let (statement, answers) = parted_line(line);
        let (task, _) = split_once(statement, b' ');
        let mut texts = Vec::new(alloc);
        self.printed = take_own(&mut texts, self.printed, number, task)?;
        self.script = more;
        self.number += 1;
        match answers {
            Some(answers) => Ok(Some(AnswerPair {
                number,
                expected: trimmed(answers),
                got: or_nothing(texts)?,
            })),
            None if self.script.is_empty() => expected_at_end(alloc, number, line, self.printed),
            None => Ok(None),
        }
    }

    /// Returns the next answer, if there is one.
    pub fn next(&mut self, alloc: Global) -> Result<Option<AnswerPair<'a>>, AllocError>
        requires { self.old.number + length self.old.script.now < 2 ^ 32 }
        ensures answers { IfOk result
            (λ found. expected_answers self.old.number (lines_of self.old.script.now) (lines_of self.old.printed.now)
            ≡ onto found (expected_answers self.new.number (lines_of self.new.script.now) (lines_of self.new.printed.now))) }
        ensures end { IfOk result
            (λ found. found ≡ None → expected_answers self.old.number (lines_of self.old.script.now) (lines_of self.old.printed.now) ≡ []) }
        ensures room { OnOk result
            (self.new.number + length self.new.script.now ≤ self.old.number + length self.old.script.now) }
        ensures number { IfOk result (λ found. IsSome found → self.old.number < self.new.number) }
    {
        'lines: while !self.script.is_empty() {
            if let Some(answer) = self.step(alloc)? {
                return Ok(Some(answer));
            }
        }
        Ok(None)
    }
}
