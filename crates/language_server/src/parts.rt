//! The parts of a line of a script, with their places.

ghost use Rattle.std.specs.Prelude.{◌≡◌, ◌≤◌, ◌+◌, length};
ghost use Rattle.language_server.specs.Words.{operands_span, parts_in, parts_of, word_span};

use crate::names::{Piece, begins_statement};
use crate::span::Span;

/// The parts of a statement. A part that is missing is empty.
#[derive(Clone, Copy, Debug)]
pub struct Parts {
    pub task: Span,
    pub operation: Span,
    /// The operands.
    pub field: Span,
}

/// Returns the word with which a piece begins.
pub(crate) fn word_span(piece: &Piece<'_>) -> Span
    requires room { piece.now.at + length piece.now.bytes ≤ 1048576 }
    ensures { result ≡ word_span piece.now }
{
    Span {
        start: piece.at,
        end: piece.at + piece.first_word().len(),
    }
}

// Returns the operands of a statement, if what follows its operation is no remark.
fn operands_span(operation: &[u8], before: Span, field: Span) -> Span
    ensures { result ≡ operands_span operation.now before field }
{
    if operation == b"RETURN".as_slice() {
        Span {
            start: before.end,
            end: before.end,
        }
    } else {
        field
    }
}

// Returns the parts of a statement.
fn parts_in(line: &Piece<'_>) -> Parts
    requires room { line.now.at + length line.now.bytes ≤ 1048576 }
    ensures { result ≡ parts_in line.now }
{
    let rest = line.after_word();
    let operation = word_span(&rest);
    Parts {
        task: word_span(line),
        operation,
        field: operands_span(rest.first_word(), operation, word_span(&rest.after_word())),
    }
}

/// Returns the parts of a line, unless it is blank or a comment.
pub fn parts_of(line: &[u8]) -> Option<Parts>
    requires { length line.now ≤ 1048576 }
    ensures { result ≡ parts_of line.now }
{
    if begins_statement(line) {
        Some(parts_in(&Piece { at: 0, bytes: line }))
    } else {
        None
    }
}
