//! Dot commands: lines of a session that are no statements.

ghost use Rattle.std.specs.Prelude.{◌≡◌};
ghost use Rattle.shell.specs.Edits.{is_command};

use crate::meant::near_keyword;
use diagnosis::Plain;
use job_script::digits::read_number;
use job_script::split_once::{next_word, skip_blanks};
use std::alloc::Global;
use std::fmt;

/// A dot command.
#[derive(Clone, Copy, Debug, PartialEq, Eq)]
pub enum Command<'a> {
    /// Lists the commands and operations, or shows the syntax of one.
    Help(&'a [u8]),
    /// Switches the reasons on or off.
    Why(bool),
    /// Shows the pages of the step.
    Map,
    /// Shows the active tasks and their subpools.
    Tasks,
    /// Shows the names that are set.
    Names,
    /// Shows the areas that were not released so far.
    Leaks,
    /// Shows the text of a rule.
    Rule(u32),
    /// Shows the text of a code.
    Code(&'a [u8]),
    /// Runs the job again without its last lines.
    Undo(usize),
    /// Runs the lines of a file in a new job.
    Open(&'a [u8]),
    /// Writes the lines of the job to a file.
    Save(&'a [u8]),
    /// Writes the page of the job to a file.
    Page(&'a [u8]),
    /// Begins a new job.
    Reset,
    /// Ends the session.
    Quit,
}

/// The name of a command.
#[derive(Clone, Copy, Debug, PartialEq, Eq)]
pub enum DotCommand {
    Help,
    Why,
    Map,
    Tasks,
    Names,
    Leaks,
    Rule,
    Code,
    Undo,
    Open,
    Save,
    Page,
    Reset,
    Quit,
}

/// All names, in the order of the list that `.help` prints.
pub const KEYWORDS: [DotCommand; 14] = [
    DotCommand::Help,
    DotCommand::Why,
    DotCommand::Map,
    DotCommand::Tasks,
    DotCommand::Names,
    DotCommand::Leaks,
    DotCommand::Rule,
    DotCommand::Code,
    DotCommand::Undo,
    DotCommand::Open,
    DotCommand::Save,
    DotCommand::Page,
    DotCommand::Reset,
    DotCommand::Quit,
];

/// Why a line that begins with a dot is no command.
#[derive(Clone, Copy, Debug, PartialEq, Eq)]
pub enum Misread<'a> {
    /// No command has this name.
    Unknown(&'a [u8]),
    /// The command of this name has another argument.
    Argument(DotCommand),
}

impl DotCommand {
    /// Returns the name, with its dot.
    pub fn text(self) -> &'static str {
        match self {
            DotCommand::Help => ".help",
            DotCommand::Why => ".why",
            DotCommand::Map => ".map",
            DotCommand::Tasks => ".tasks",
            DotCommand::Names => ".names",
            DotCommand::Leaks => ".leaks",
            DotCommand::Rule => ".rule",
            DotCommand::Code => ".code",
            DotCommand::Undo => ".undo",
            DotCommand::Open => ".open",
            DotCommand::Save => ".save",
            DotCommand::Page => ".page",
            DotCommand::Reset => ".reset",
            DotCommand::Quit => ".quit",
        }
    }

    /// Returns the name without its dot.
    pub fn name(self) -> &'static str {
        let text = self.text();
        text.strip_prefix(".").unwrap_or(text)
    }

    /// Returns how the command is written.
    pub fn syntax(self) -> &'static str {
        match self {
            DotCommand::Help => ".help [NAME]",
            DotCommand::Why => ".why on|off",
            DotCommand::Map => ".map",
            DotCommand::Tasks => ".tasks",
            DotCommand::Names => ".names",
            DotCommand::Leaks => ".leaks",
            DotCommand::Rule => ".rule N",
            DotCommand::Code => ".code CODE",
            DotCommand::Undo => ".undo [N]",
            DotCommand::Open => ".open FILE",
            DotCommand::Save => ".save FILE",
            DotCommand::Page => ".page FILE",
            DotCommand::Reset => ".reset",
            DotCommand::Quit => ".quit",
        }
    }

    /// Returns what the command does.
    pub fn purpose(self) -> &'static str {
        match self {
            DotCommand::Help => "list the commands and operations, or show the syntax of one",
            DotCommand::Why => "print reasons after each reply, or no longer",
            DotCommand::Map => "show the pages",
            DotCommand::Tasks => "show the active tasks and their subpools",
            DotCommand::Names => "show the names that are set",
            DotCommand::Leaks => "show the areas that were not released so far",
            DotCommand::Rule => "show rule N, 1 to 74",
            DotCommand::Code => "show what a code means, such as S878",
            DotCommand::Undo => "run the job again without its last N lines",
            DotCommand::Open => "run the lines of a file in a new job",
            DotCommand::Save => "write the lines of the job to a file",
            DotCommand::Page => "write the page of the job to a file",
            DotCommand::Reset => "begin a new job",
            DotCommand::Quit => "end the job and the session, as Ctrl-D does",
        }
    }

    // Returns the command of this name without an argument, if it needs none.
    fn plain<'a>(self) -> Option<Command<'a>> {
        match self {
            DotCommand::Help => Some(Command::Help(b"")),
            DotCommand::Map => Some(Command::Map),
            DotCommand::Tasks => Some(Command::Tasks),
            DotCommand::Names => Some(Command::Names),
            DotCommand::Leaks => Some(Command::Leaks),
            DotCommand::Undo => Some(Command::Undo(1)),
            DotCommand::Reset => Some(Command::Reset),
            DotCommand::Quit => Some(Command::Quit),
            DotCommand::Why
            | DotCommand::Rule
            | DotCommand::Code
            | DotCommand::Open
            | DotCommand::Save
            | DotCommand::Page => None,
        }
    }

    // Returns the command of this name with an argument, if it takes this one.
    fn with<'a>(self, argument: &'a [u8]) -> Option<Command<'a>> {
        match self {
            DotCommand::Help => Some(Command::Help(argument)),
            DotCommand::Why => switch_of(argument).map(|on| Command::Why(on)),
            DotCommand::Rule => Some(Command::Rule(number_of(argument)?)),
            DotCommand::Code => Some(Command::Code(argument)),
            DotCommand::Undo => Some(Command::Undo(number_of(argument)? as usize)),
            DotCommand::Open => Some(Command::Open(word_of(argument)?)),
            DotCommand::Save => Some(Command::Save(word_of(argument)?)),
            DotCommand::Page => Some(Command::Page(word_of(argument)?)),
            DotCommand::Map
            | DotCommand::Tasks
            | DotCommand::Names
            | DotCommand::Leaks
            | DotCommand::Reset
            | DotCommand::Quit => None,
        }
    }
}

// Returns what an argument of `.why` switches to.
fn switch_of(argument: &[u8]) -> Option<bool> {
    if argument == b"on".as_slice() {
        Some(true)
    } else if argument == b"off".as_slice() {
        Some(false)
    } else {
        None
    }
}

// Returns the number that an argument is, if it has at most nine digits.
fn number_of(argument: &[u8]) -> Option<u32> {
    if argument.len() > 9 {
        return None;
    }
    u32::try_from(read_number(argument)?).ok()
}

// Returns an argument that is one word.
fn word_of(argument: &[u8]) -> Option<&[u8]> {
    if argument.contains(&b' ') {
        None
    } else {
        Some(argument)
    }
}

// Returns a text without the blanks at its end.
fn without_end_blanks(text: &[u8]) -> &[u8] {
    let mut end = text.len();
    'blanks: while end > 0 && text[end - 1] == b' ' {
        end -= 1;
    }
    &text[..end]
}

/// Returns whether a line is a dot command, and no statement.
pub fn is_command(line: &[u8]) -> bool
    ensures { result ≡ is_command line.now }
{
    match line {
        [] => false,
        [first, ..] => *first == b'.',
    }
}

// Returns the command name that a word is, if it is one.
fn keyword_of(word: &[u8]) -> Option<DotCommand> {
    KEYWORDS
        .iter()
        .copied()
        .find(|keyword| keyword.text().as_bytes() == word)
}

/// Reads a dot command. The argument is the text after the name, without blanks around it.
pub fn read_command(line: &[u8]) -> Result<Command<'_>, Misread<'_>> {
    let (word, rest) = next_word(line);
    let argument = without_end_blanks(skip_blanks(rest));
    let Some(keyword) = keyword_of(word) else {
        return Err(Misread::Unknown(word));
    };
    let read = if argument.is_empty() {
        keyword.plain()
    } else {
        keyword.with(argument)
    };
    read.ok_or(Misread::Argument(keyword))
}

/// A message about a line that begins with a dot and is no command, with the command that may be meant.
#[derive(Clone, Copy)]
pub struct Correction<'a> {
    misread: Misread<'a>,
    near: Option<DotCommand>,
}

impl<'a> Correction<'a> {
    /// Makes the message. Memory is allocated only for the search for a similar name.
    pub fn new(alloc: Global, misread: Misread<'a>) -> Correction<'a> {
        let near = match misread {
            Misread::Unknown(word) => near_keyword(alloc, word),
            Misread::Argument(_) => None,
        };
        Correction { misread, near }
    }
}

impl fmt::Display for Correction<'_> {
    fn fmt<W: fmt::Write>(&self, f: &mut fmt::Formatter<W>) -> fmt::Result {
        match (self.misread, self.near) {
            (Misread::Argument(keyword), _) => writeln!(f, "expected {}", keyword.syntax()),
            (Misread::Unknown(word), Some(near)) => writeln!(
                f,
                "unknown command {}: did you mean {}?",
                Plain(word),
                near.text()
            ),
            (Misread::Unknown(word), None) => writeln!(
                f,
                "unknown command {}: .help lists the commands",
                Plain(word)
            ),
        }
    }
}
