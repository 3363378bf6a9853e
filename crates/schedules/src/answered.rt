//! The answers to the statements of a schedule.

ghost use Rattle.std.specs.Prelude.{◌≡◌, IfOk};
ghost use Rattle.schedules.specs.Answered.{gives, order_of, same};

use mvs_model::error::OutOfMemory;
use std::alloc::Global;
use std::marker::Model;

/// The answer to a statement: the number of its line, and the text that is printed, which is empty if the statement is not reached.
#[derive(Drop)]
pub struct Answered {
    line_number: u32,
    text: Vec<u8>,
}

impl Model for Answered {
    ghost use Rattle.schedules.specs.Answered.{AnsweredValue, answered_code};

    ghost Value = { AnsweredValue };

    ghost coded = { answered_code };

    ghost view = { λ a. record { line = a.line_number; text = a.text.items } };
}

impl Answered {
    /// Makes the answer to the statement on a line.
    pub fn new(line_number: u32, text: Vec<u8>) -> Answered
        ensures { result ≡ record { line = line_number; text = text.items } }
    {
        Answered { line_number, text }
    }

    /// Returns the number of the line.
    pub fn line_number(&self) -> u32
        ensures { result ≡ self.now.line }
    {
        self.line_number
    }

    /// Returns the printed text.
    pub fn text(&self) -> &[u8]
        ensures { result.now ≡ self.now.text }
    {
        &self.text
    }

    /// Returns whether both are the same answer to the same statement.
    pub fn is_same(&self, other: &Answered) -> bool
        ensures { result ≡ same self.now other.now }
    {
        self.line_number == other.line_number && self.text.as_slice() == other.text.as_slice()
    }

    /// Returns a copy. It fails if memory is exhausted.
    pub fn try_clone(&self, alloc: Global) -> Result<Answered, OutOfMemory>
        ensures { IfOk result (λ copy. copy ≡ self.now) }
    {
        Ok(Answered {
            line_number: self.line_number,
            text: Vec::from_slice(alloc, &self.text).map_err(|_| OutOfMemory)?,
        })
    }
}

/// Returns whether a schedule gives an answer.
pub(crate) fn gives(answer: &Answered, schedule: &[Answered]) -> bool
    ensures { result ≡ gives answer.now schedule.now }
{
    schedule.iter().any(|other| answer.is_same(other))
}

/// Returns the numbers of the lines of a schedule, in its order.
pub(crate) fn order_of(alloc: Global, schedule: &[Answered]) -> Result<Vec<u32>, OutOfMemory>
    ensures { IfOk result (λ order. order.items ≡ order_of schedule.now) }
{
    let mut order = Vec::new(alloc);
    for answer in schedule {
        order.push(answer.line_number()).map_err(|_| OutOfMemory)?;
    }
    Ok(order)
}

/// Returns copies of answers.
pub(crate) fn copies(alloc: Global, answers: &[Answered]) -> Result<Vec<Answered>, OutOfMemory>
    ensures { IfOk result (λ copies. copies.items ≡ answers.now) }
{
    let mut copies = Vec::new(alloc);
    for answer in answers {
        let copy = answer.try_clone(alloc)?;
        copies.push(copy).map_err(|_| OutOfMemory)?;
    }
    Ok(copies)
}
