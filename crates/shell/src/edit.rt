//! Dot commands that change the lines of the job, or end it.

ghost use Rattle.std.specs.Prelude.{◌≡◌};
ghost use Rattle.shell.specs.Edits.{edit_of, edit_with, undo_of};

use job_script::digits::{is_number, number};
use job_script::split_once::next_word;

/// What a dot command does to the lines of the job.
#[derive(Clone, Copy, Debug, PartialEq, Eq)]
pub enum ScriptEdit {
    /// They stay.
    Stays,
    /// The last ones are removed.
    Undo(usize),
    /// All are removed.
    Reset,
    /// Those of a file replace them.
    Open,
    /// They stay, and no more are read.
    Quit,
}

// Returns what `.undo` with an argument does.
fn undo_of(argument: &[u8]) -> ScriptEdit
    ensures { result ≡ undo_of argument.now }
{
    if argument.is_empty() {
        ScriptEdit::Undo(1)
    } else if argument.len() <= 9 && is_number(argument) {
        ScriptEdit::Undo(number(argument) as usize)
    } else {
        ScriptEdit::Stays
    }
}

// Returns what a command with an argument does.
fn edit_with(word: &[u8], argument: &[u8]) -> ScriptEdit
    ensures { result ≡ edit_with word.now argument.now }
{
    if word == b".undo".as_slice() {
        undo_of(argument)
    } else if word == b".reset".as_slice() && argument.is_empty() {
        ScriptEdit::Reset
    } else if word == b".open".as_slice() && !argument.is_empty() {
        ScriptEdit::Open
    } else if word == b".quit".as_slice() && argument.is_empty() {
        ScriptEdit::Quit
    } else {
        ScriptEdit::Stays
    }
}

/// Returns what a line that begins with a dot does to the lines of the job.
pub fn edit_of(line: &[u8]) -> ScriptEdit
    ensures { result ≡ edit_of line.now }
{
    let (word, rest) = next_word(line);
    let (argument, more) = next_word(rest);
    let (extra, _) = next_word(more);
    if extra.is_empty() {
        edit_with(word, argument)
    } else {
        ScriptEdit::Stays
    }
}
