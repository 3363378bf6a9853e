//! What a place of a document is in: the task of a statement, its operation, its operands, or a remark.

ghost use Rattle.std.specs.Prelude.{◌≡◌, ◌≤◌, ◌+◌, IfSome, length};
ghost use Rattle.language_server.specs.Names.{form_word};
ghost use Rattle.language_server.specs.Subjects.{code_word, form_span, line_field, operand_at, piece_span, rule_number, spot_at, spot_in, subject_by, subject_in, subject_of, subject_span};

use crate::document::Document;
use crate::explanations::{abend_code, explained_rule};
use crate::names::{Piece, form_of, split_operand};
use crate::parts::{Parts, parts_of};
use crate::span::Span;
use crate::words::{remark_code, remark_rule, word_at};

/// What a column of a line is in. The span is what a hover is about.
#[derive(Clone, Copy, Debug)]
pub enum LinePart {
    Task(Span),
    Operation(Span),
    /// A word of the operands.
    Field(Span),
    /// A word of a remark or a comment.
    Remark(Span),
}

/// A place of a document: its line, its column, and what it is in.
#[derive(Clone, Copy, Debug)]
pub struct Spot {
    pub place: usize,
    /// The number of the lines before its line.
    pub line: usize,
    pub column: usize,
    pub subject: LinePart,
}

impl LinePart {
    /// Returns the bytes of the line that a hover is about.
    pub fn span(self) -> Span
        ensures { result ≡ subject_span self }
    {
        match self {
            LinePart::Task(span)
            | LinePart::Operation(span)
            | LinePart::Field(span)
            | LinePart::Remark(span) => span,
        }
    }
}

// Returns what a column of a statement is in.
fn subject_in(parts: Parts, word: Span, column: usize) -> LinePart
    ensures { result ≡ subject_in parts word column }
{
    if parts.task.touches(column) {
        LinePart::Task(parts.task)
    } else if parts.operation.touches(column) {
        LinePart::Operation(parts.operation)
    } else if parts.field.touches(column) && !parts.field.is_empty() {
        LinePart::Field(word)
    } else {
        LinePart::Remark(word)
    }
}

// Returns what a column of a line is in.
fn subject_of(line: &[u8], column: usize) -> LinePart
    requires { length line.now ≤ 1048576 }
    ensures { result ≡ subject_of line.now column }
{
    let word = word_at(line, column);
    match parts_of(line) {
        Some(parts) => subject_in(parts, word, column),
        None => LinePart::Remark(word),
    }
}

/// Returns the operands of a line, and what follows them.
pub fn line_field(line: &[u8]) -> Piece<'_>
    requires { length line.now ≤ 1048576 }
    ensures field { result ≡ line_field line.now }
    ensures room { result.at + length result.bytes ≤ 1048576 }
{
    let line = Piece { at: 0, bytes: line };
    line.after_word().after_word()
}

/// Returns the bytes of a piece.
pub fn piece_span(piece: &Piece<'_>) -> Span
    requires room { piece.now.at + length piece.now.bytes ≤ 1048576 }
    ensures { result ≡ piece_span piece.now }
{
    Span {
        start: piece.at,
        end: piece.at + piece.bytes.len(),
    }
}

/// Returns the form of a field, which is its first operand.
pub fn field_form<'a>(field: &Piece<'a>) -> &'a [u8]
    ensures { result.now ≡ form_word field.now }
{
    form_of(field.bytes)
}

/// Returns where the form of a field is.
pub fn form_span(field: &Piece<'_>) -> Span
    requires room { field.now.at + length field.now.bytes ≤ 1048576 }
    ensures { result ≡ form_span field.now }
{
    Span {
        start: field.at,
        end: field.at + form_of(field.bytes).len(),
    }
}

/// Returns the operand of a field at a column, or right before it.
pub fn operand_at<'a>(field: &Piece<'a>, column: usize) -> Option<Piece<'a>>
    requires room { field.now.at + length field.now.bytes ≤ 1048576 }
    ensures operand { result ≡ operand_at field.now column }
    ensures room { IfSome result
        (λ operand. operand.at + length operand.bytes ≤ 1048576) }
{
    let mut place = field.at;
    let mut rest = field.bytes;
    'operands: loop {
        let (bytes, more) = split_operand(rest);
        let operand = Piece { at: place, bytes };
        if piece_span(&operand).touches(column) {
            return Some(operand);
        }
        rest = more?;
        place += bytes.len() + 1;
    }
}

impl Document {
    // Returns what a place of a line is in.
    fn spot_in(&self, place: usize, line: usize) -> Spot
        ensures exact { result ≡ spot_in self.now.text place line }
        ensures line { result.line ≡ line }
    {
        let column = place.saturating_sub(self.start(line));
        Spot {
            place,
            line,
            column,
            subject: subject_of(self.line(line), column),
        }
    }

    /// Returns the line and the column of a place, and what it is in.
    pub(crate) fn spot_at(&self, place: usize) -> Spot
        ensures exact { result ≡ spot_at self.now.text place }
        ensures bound { result.line ≤ 1048576 }
    {
        self.spot_in(place, self.line_of(place))
    }

    /// Returns the word that may be a code: the one of a remark, or the code of the answer of a line.
    pub(crate) fn code_word(&self, line: usize, subject: LinePart) -> &[u8]
        ensures { result.now ≡ code_word self.now line subject }
    {
        match subject {
            LinePart::Remark(word) => remark_code(self.line(line), word),
            LinePart::Task(_) | LinePart::Operation(_) | LinePart::Field(_) => {
                abend_code(self.answer(line)).unwrap_or(&[])
            }
        }
    }

    /// Returns the number of a rule: that in a remark, or the first that the explanation of the answer of a line names.
    pub(crate) fn rule_number(&self, line: usize, subject: LinePart) -> Option<u64>
        ensures { result ≡ rule_number self.now line subject }
    {
        match subject {
            LinePart::Remark(word) => remark_rule(self.line(line), word),
            LinePart::Task(_) | LinePart::Operation(_) | LinePart::Field(_) => {
                explained_rule(self.others(line))
            }
        }
    }
}
