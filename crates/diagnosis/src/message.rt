//! What a diagnosis says of the columns that are to blame.

use crate::blamed::OperandError;
use crate::values::keyword_of;
use crate::words::{AcceptedOperands, Among, Described, Plain, StatementName};
use job_script::keys::Key;
use job_script::operations::Operation;
use job_script::rows::Row;
use job_script::split_once::split_once;
use mvs_model::line::Fault;
use std::fmt;

/// What is wrong there.
#[derive(Clone, Copy)]
pub enum Message<'a> {
    TooLong,
    /// A line that is too long has a byte X'00'.
    NoText,
    /// The script cannot have this byte.
    Byte(u8),
    /// The line begins with a blank.
    Blank,
    /// The first word is no name.
    Task(&'a [u8]),
    /// Nothing follows the task.
    NoOperation,
    Operation(&'a [u8]),
    /// The first statement is another one than REGION.
    NotFirst,
    NoStatement,
    /// The operation has forms, and none is given.
    NoForm(Operation),
    /// An operand with a keyword is in the place of the form.
    Keyed(Operation, &'a [u8]),
    Form(Operation, &'a [u8]),
    /// The statement does not take this operand.
    Operand(StatementName<'a>, OperandError<'a>),
    /// These operands are missing.
    Missing(StatementName<'a>, Missing),
    /// The two keywords exclude each other.
    Excluded(Key, Key),
    /// The two lists are not of one length.
    Unequal(Key, Key),
    /// A number is given and shared.
    Both,
    /// Nothing more is known.
    Something,
}

/// Which operands of a row are missing: a set of its keywords, and of its positional operands.
#[derive(Clone, Copy)]
pub struct Missing {
    pub row: Row,
    /// Of each keyword, whether it is missing.
    pub keywords: [bool; 8],
    /// How many positional operands are there.
    pub count: usize,
}

impl fmt::Display for Missing {
    fn fmt<W: fmt::Write>(&self, f: &mut fmt::Formatter<W>) -> fmt::Result {
        let mut between = "";
        for (place, operand) in self.row.positional().iter().enumerate() {
            if place >= self.count && operand.required {
                write!(f, "{between}{}", Described(operand.kind))?;
                between = "; ";
            }
        }
        for (place, keyword) in self.row.keywords().iter().enumerate() {
            if place < 8 && self.keywords[place] {
                write!(f, "{between}{}", keyword.key.text())?;
                between = ", ";
            }
        }
        Ok(())
    }
}

// Returns what is wrong with an operand that has a key.
fn write_keyed<W: fmt::Write>(
    f: &mut fmt::Formatter<W>,
    called: &StatementName<'_>,
    blamed: &OperandError<'_>,
    key: &[u8],
) -> fmt::Result {
    let operand = Plain(blamed.operand);
    match keyword_of(blamed.row, key) {
        None => write!(
            f,
            "{operand}: {called} takes {}",
            AcceptedOperands(blamed.row)
        ),
        Some(keyword) => match blamed.fault {
            Fault::Repeated => write!(f, "{operand}: duplicate"),
            Fault::TooLong
            | Fault::InvalidByte
            | Fault::UnknownOperation
            | Fault::InvalidOperand
            | Fault::MissingOperand
            | Fault::OutOfRange
            | Fault::Conflicting
            | Fault::OutOfPlace => write!(
                f,
                "{operand}: {} takes {}",
                Plain(key),
                Described(keyword.kind)
            ),
        },
    }
}

// Returns what is wrong with an operand.
fn write_operand<W: fmt::Write>(
    f: &mut fmt::Formatter<W>,
    called: &StatementName<'_>,
    blamed: &OperandError<'_>,
) -> fmt::Result {
    let (key, text) = split_once(blamed.operand, b'=');
    if text.is_some() {
        return write_keyed(f, called, blamed, key);
    }
    if blamed.operand.is_empty() {
        return write!(f, "empty operand of {called}");
    }
    let operand = Plain(blamed.operand);
    match blamed.expected {
        Some(kind) => write!(f, "{operand}: expected {}", Described(kind)),
        None => write!(
            f,
            "{operand}: {called} takes {}",
            AcceptedOperands(blamed.row)
        ),
    }
}

impl fmt::Display for Message<'_> {
    fn fmt<W: fmt::Write>(&self, f: &mut fmt::Formatter<W>) -> fmt::Result {
        match self {
            Message::TooLong => write!(f, "a line has at most 255 bytes"),
            Message::NoText => write!(f, "a line has at most 255 bytes; is the file a script?"),
            Message::Byte(byte) => write!(
                f,
                "invalid byte X'{byte:02X}': only X'20' to X'7E' are allowed"
            ),
            Message::Blank => write!(f, "a statement begins with the name of its task"),
            Message::Task(word) => write!(f, "{} is not a task name", Plain(word)),
            Message::NoOperation => write!(f, "missing operation after the task name"),
            Message::Operation(word) => write!(f, "unknown operation {}", Plain(word)),
            Message::NotFirst => write!(f, "the first statement must be REGION"),
            Message::NoStatement => write!(f, "the script has no statement"),
            Message::NoForm(operation) => {
                let forms = Among(operation.forms(), "or");
                write!(f, "missing form of {}: {forms}", operation.text())
            }
            Message::Keyed(operation, operand) => {
                let forms = Among(operation.forms(), "or");
                let operation = operation.text();
                write!(
                    f,
                    "{}: the form of {operation} comes first: {forms}",
                    Plain(operand)
                )
            }
            Message::Form(operation, form) => {
                let forms = Among(operation.forms(), "and");
                let operation = operation.text();
                write!(
                    f,
                    "unknown form {}: the forms of {operation} are {forms}",
                    Plain(form)
                )
            }
            Message::Operand(called, blamed) => write_operand(f, called, blamed),
            Message::Missing(called, missing) => write!(f, "{called}: missing {missing}"),
            Message::Excluded(one, other) => {
                write!(f, "{} and {} exclude each other", one.text(), other.text())
            }
            Message::Unequal(one, other) => {
                write!(
                    f,
                    "{} and {} must have the same number of items",
                    one.text(),
                    other.text()
                )
            }
            Message::Both => write!(f, "a subpool can be given or shared, not both"),
            Message::Something => write!(f, "the line cannot be parsed"),
        }
    }
}
