//! The texts of `.help`: the commands, and the syntax of an operation from the table of statements.

use crate::command::{DotCommand as CommandName, KEYWORDS};
use crate::meant::{is_name, keyword_named, near_operation, operation_named};
use diagnosis::Plain;
use job_script::kinds::Kind;
use job_script::operations::{OPERATIONS, Operation};
use job_script::rows::{Keyword, Row, Rule};
use job_script::split_once::next_word;
use std::alloc::Global;
use std::fmt;

// What a text of `.help` is about.
#[derive(Clone, Copy)]
enum Topic<'a> {
    // All commands and operations.
    All,
    Command(CommandName),
    // An operation, and the word after it, which may be a form.
    Operation(Operation, &'a [u8]),
    // A word that names none, and the operation that may be meant.
    Unknown(&'a [u8], Option<Operation>),
}

/// The text of `.help` with an argument.
#[derive(Clone, Copy)]
pub struct Help<'a>(Topic<'a>);

// An operand's value in a syntax.
#[derive(Clone, Copy)]
struct Value(Kind);

// An operand in a syntax.
#[derive(Clone, Copy)]
enum OperandSyntax {
    Positional(Kind),
    Keyword(Keyword),
}

// A rule between operands.
#[derive(Clone, Copy)]
struct RuleText(Rule);

// The syntax of an operation with a form, which is empty if the operation takes none.
#[derive(Clone, Copy)]
struct RowSyntax {
    operation: Operation,
    form: &'static str,
    row: Row,
}

impl fmt::Display for Value {
    fn fmt<W: fmt::Write>(&self, f: &mut fmt::Formatter<W>) -> fmt::Result {
        match self.0 {
            Kind::Number(..) => write!(f, "n"),
            Kind::HexByte => write!(f, "hh"),
            Kind::Word(words) => write_words(f, words.texts()),
            Kind::Name => write!(f, "name"),
            Kind::Address => write!(f, "address"),
            Kind::Bytes(_) => write!(f, "X'hh..'"),
            Kind::Pair(..) => write!(f, "(most,least)"),
            Kind::NumberOrPair(..) => write!(f, "n or (most,least)"),
            Kind::Numbers(..) | Kind::DistinctNumbers(..) => write!(f, "(n,..)"),
            Kind::DistinctNames(_) => write!(f, "(name,..)"),
            Kind::Addresses(_) => write!(f, "(address,..)"),
        }
    }
}

// Writes words with bars between them.
fn write_words<W: fmt::Write>(f: &mut fmt::Formatter<W>, words: &[&str]) -> fmt::Result {
    let mut between = "";
    for word in words {
        write!(f, "{between}{word}")?;
        between = "|";
    }
    Ok(())
}

impl fmt::Display for OperandSyntax {
    fn fmt<W: fmt::Write>(&self, f: &mut fmt::Formatter<W>) -> fmt::Result {
        match self {
            OperandSyntax::Positional(kind) => write!(f, "{}", Value(*kind)),
            OperandSyntax::Keyword(keyword) => {
                write!(f, "{}={}", keyword.key.text(), Value(keyword.kind))
            }
        }
    }
}

impl fmt::Display for RuleText {
    fn fmt<W: fmt::Write>(&self, f: &mut fmt::Formatter<W>) -> fmt::Result {
        match self.0 {
            Rule::Together(one, other) => {
                write!(f, "{} and {} only together", one.text(), other.text())
            }
            Rule::Excludes(one, other) => {
                write!(f, "not both {} and {}", one.text(), other.text())
            }
            Rule::SameLength(one, other) => write!(
                f,
                "the lists of {} and {} have the same length",
                one.text(),
                other.text()
            ),
            Rule::Apart(one, other, third, fourth) => write!(
                f,
                "no number both in {} or {} and in {} or {}",
                one.text(),
                other.text(),
                third.text(),
                fourth.text()
            ),
        }
    }
}

// Writes an operand of a syntax, and returns what comes before the next one.
fn write_operand<W: fmt::Write>(
    f: &mut fmt::Formatter<W>,
    before: &str,
    operand: &OperandSyntax,
    required: bool,
) -> fmt::Result {
    if required {
        write!(f, "{before}{operand}")
    } else {
        write!(f, "[{before}{operand}]")
    }
}

impl fmt::Display for RowSyntax {
    fn fmt<W: fmt::Write>(&self, f: &mut fmt::Formatter<W>) -> fmt::Result {
        write!(f, "  task {}", self.operation.text())?;
        let mut before = " ";
        if !self.form.is_empty() {
            write!(f, " {}", self.form)?;
            before = ",";
        }
        for operand in self.row.positional() {
            let syntax = OperandSyntax::Positional(operand.kind);
            write_operand(f, before, &syntax, operand.required)?;
            before = ",";
        }
        for keyword in self.row.keywords() {
            let syntax = OperandSyntax::Keyword(*keyword);
            write_operand(f, before, &syntax, keyword.required)?;
            before = ",";
        }
        writeln!(f)
    }
}

// Writes the rules between the operands of a row.
fn write_rules<W: fmt::Write>(f: &mut fmt::Formatter<W>, row: Row) -> fmt::Result {
    for rule in row.rules() {
        writeln!(f, "    {}", RuleText(*rule))?;
    }
    Ok(())
}

// Writes the syntax of an operation with a form, if it takes that.
fn write_form<W: fmt::Write>(
    f: &mut fmt::Formatter<W>,
    operation: Operation,
    form: &'static str,
) -> fmt::Result {
    match operation.row(form.as_bytes()) {
        Some(row) => {
            write!(
                f,
                "{}",
                RowSyntax {
                    operation,
                    form,
                    row
                }
            )?;
            write_rules(f, row)
        }
        None => Ok(()),
    }
}

// Writes the syntax of an operation, with each of its forms or with the one that a word names.
fn write_operation<W: fmt::Write>(
    f: &mut fmt::Formatter<W>,
    operation: Operation,
    word: &[u8],
) -> fmt::Result {
    if !operation.takes_form() {
        return write_form(f, operation, "");
    }
    let is_form = operation.forms().iter().any(|form| is_name(word, form));
    for form in operation.forms() {
        if !is_form || is_name(word, form) {
            write_form(f, operation, form)?;
        }
    }
    Ok(())
}

// Writes the syntax of a command, and what it does.
fn write_command<W: fmt::Write>(f: &mut fmt::Formatter<W>, name: CommandName) -> fmt::Result {
    writeln!(f, "  {:<18}{}", name.syntax(), name.purpose())
}

// Writes the list of commands and operations.
fn write_list<W: fmt::Write>(f: &mut fmt::Formatter<W>) -> fmt::Result {
    writeln!(f, "A line that begins with a dot is a command:")?;
    for name in KEYWORDS {
        write_command(f, name)?;
    }
    writeln!(f, "Any other line is a statement, TASK OPERATION OPERANDS:")?;
    let mut before = "  ";
    for operation in OPERATIONS {
        write!(f, "{before}{}", operation.text())?;
        before = " ";
    }
    writeln!(
        f,
        "\nThe first statement is REGION, such as JOB REGION BELOW=4."
    )
}

// Writes that a word names no operation, and the one that may be meant.
fn write_unknown<W: fmt::Write>(
    f: &mut fmt::Formatter<W>,
    word: &[u8],
    near: Option<Operation>,
) -> fmt::Result {
    let word = Plain(word);
    match near {
        Some(operation) => writeln!(f, "no operation {word}: did you mean {}?", operation.text()),
        None => writeln!(f, "no operation {word}: .help lists them"),
    }
}

impl<'a> Help<'a> {
    /// Makes the text for an argument, which may be empty. Memory is allocated only for the search for a similar name.
    pub fn new(alloc: Global, argument: &'a [u8]) -> Help<'a> {
        let (word, rest) = next_word(argument);
        if word.is_empty() {
            return Help(Topic::All);
        }
        if let Some(name) = keyword_named(word) {
            return Help(Topic::Command(name));
        }
        Help(match operation_named(word) {
            Some(operation) => Topic::Operation(operation, next_word(rest).0),
            None => Topic::Unknown(word, near_operation(alloc, word)),
        })
    }
}

impl fmt::Display for Help<'_> {
    fn fmt<W: fmt::Write>(&self, f: &mut fmt::Formatter<W>) -> fmt::Result {
        match self.0 {
            Topic::All => write_list(f),
            Topic::Command(name) => write_command(f, name),
            Topic::Operation(operation, form) => write_operation(f, operation, form),
            Topic::Unknown(word, near) => write_unknown(f, word, near),
        }
    }
}
