//! What a run printed for each line of a script.

ghost use Rattle.std.specs.Prelude.{◌≡◌, ◌<◌, ◌+◌, ◌++◌, ◌^◌, [], IfOk, OnOk, is_some, length, true};
ghost use Rattle.std.specs.Option.{option_map};
ghost use Rattle.expected_answers.specs.ExpectedAnswers.{joined, numbered};
ghost use Rattle.mvs_model.specs.Lines.{lines_of};
ghost use Rattle.language_server.specs.LineOutputs.{after_own, begins_with_digit, is_own, is_own_line, others_of, own, own_text, line_outputs, texts_of, with_other, with_text};

use expected_answers::{numbered, push_text, without_task};
use job_script::split_once::split_once;
use std::alloc::{AllocError, Global};
use std::marker::Model;

/// What a run printed for a line.
#[derive(Drop)]
pub struct LineOutput {
    /// The texts of its lines, without the number and the task, with ` / ` between them.
    pub answer: Vec<u8>,
    /// The other lines, as explanations and the end of a step.
    pub others: Vec<u8>,
}

impl Model for LineOutput {
    ghost use Rattle.language_server.specs.LineOutputs.{LineOutputValue};

    ghost Value = { LineOutputValue };

    ghost view = { λ t. record { answer = t.answer.items; others = t.others.items } };
}

// Returns whether a printed line begins with a digit.
fn begins_with_digit(line: &[u8]) -> bool
    ensures { result ≡ begins_with_digit line.now }
{
    match line.first() {
        Some(byte) => *byte >= b'0' && *byte <= b'9',
        None => false,
    }
}

// Returns whether a printed line has a number.
fn has_number(line: &[u8], number: u32) -> bool
    ensures { result ≡ is_some (numbered number line.now) }
{
    numbered(line, number).is_some()
}

// Returns whether a printed line belongs to the line with a number: it has the number, or none.
fn is_own_line(line: &[u8], number: u32) -> bool
    ensures { result ≡ is_own_line number line.now }
{
    if begins_with_digit(line) {
        has_number(line, number)
    } else {
        true
    }
}

// Returns whether the first of some printed lines belongs to the line with a number: it has the number, or none.
fn is_own(printed: &[u8], number: u32) -> bool
    ensures own { result ≡ is_own number (lines_of printed.now) }
    ensures some { result ≡ true → 0 < length printed.now }
{
    let (line, _) = split_once(printed, b'\n');
    if printed.is_empty() {
        false
    } else {
        is_own_line(line, number)
    }
}

// Returns the text of a printed line that has a number, without the number and the task.
fn own_text<'a>(line: &'a [u8], number: u32, task: &[u8]) -> Option<&'a [u8]>
    ensures { option_map (λ t. t.now) result ≡ own_text number task.now line.now }
{
    numbered(line, number).map(|text| without_task(text, task))
}

impl LineOutput {
    // Makes one for which nothing was printed.
    fn new(alloc: Global) -> LineOutput
        ensures answer { result.answer ≡ [] }
        ensures others { result.others ≡ [] }
    {
        LineOutput {
            answer: Vec::new(alloc),
            others: Vec::new(alloc),
        }
    }

    /// Returns the texts of its lines.
    pub(crate) fn answer(&self) -> &[u8]
        ensures { result.now ≡ self.now.answer }
    {
        &self.answer
    }

    /// Returns its other lines.
    pub(crate) fn others(&self) -> &[u8]
        ensures { result.now ≡ self.now.others }
    {
        &self.others
    }

    // Adds a printed line: the text that is of the statement, or else the line.
    fn add(&mut self, line: &[u8], text: Option<&[u8]>) -> Result<(), AllocError>
        ensures answer { OnOk result
            (self.new.answer ≡ with_text (option_map (λ t. t.now) text.entry) self.old.answer) }
        ensures others { OnOk result
            (self.new.others ≡ with_other (option_map (λ t. t.now) text.entry) self.old.others line.now) }
    {
        match text {
            Some(text) => push_text(&mut self.answer, text),
            None => {
                self.others.extend_from_slice(line)?;
                self.others.push(b'\n')?;
                Ok(())
            }
        }
    }

    // Takes what was printed for a line, and returns what was printed after it.
    fn take<'a>(
        &mut self,
        printed: &'a [u8],
        number: u32,
        task: &[u8],
    ) -> Result<&'a [u8], AllocError>
        ensures answer { OnOk result
            (self.new.answer ≡ joined self.old.answer
            (texts_of number task.now (own number (lines_of printed.now)))) }
        ensures others { OnOk result
            (self.new.others ≡ self.old.others
            ++ others_of number task.now (own number (lines_of printed.now))) }
        ensures rest { IfOk result
            (λ rest. lines_of rest.now ≡ after_own number (lines_of printed.now)) }
    {
        let mut rest = printed;
        'own: while is_own(rest, number) {
            let (line, more) = split_once(rest, b'\n');
            self.add(line, own_text(line, number, task))?;
            rest = more.unwrap_or(&[]);
        }
        Ok(rest)
    }
}

/// Returns what a run printed for each line of a script.
pub fn line_outputs(
    alloc: Global,
    script: &[u8],
    printed: &[u8],
) -> Result<Vec<LineOutput>, AllocError>
    requires { length script.now + 1 < 2 ^ 32 }
    ensures { IfOk result
        (λ found. found.items ≡ line_outputs 1 (lines_of script.now) (lines_of printed.now)) }
{
    let mut found = Vec::new(alloc);
    let mut number = 1;
    let mut printed = printed;
    let mut rest = script;
    'lines: while !rest.is_empty() {
        let (line, more) = split_once(rest, b'\n');
        let (task, _) = split_once(line, b' ');
        let mut output = LineOutput::new(alloc);
        printed = output.take(printed, number, task)?;
        found.push(output)?;
        number += 1;
        rest = more.unwrap_or(&[]);
    }
    Ok(found)
}
