//! Operands that are missing, and operands that exclude each other.

ghost use Rattle.job_script.specs.GivenOperands.{IsRead};

use crate::faults::{FaultSpan, place_of};
use crate::hint::Hint;
use crate::message::{Message, Missing};
use crate::operands::{OperationField, field_of, second_word};
use crate::words::StatementName;
use job_script::given::GivenOperands;
use job_script::items::{between, count};
use job_script::keys::Key;
use job_script::operations::{Operation, read_operation};
use job_script::rows::{Row, Rule};
use job_script::split_once::{next_operand, next_word, split_once};

/// Returns how a statement is called, its row of the table, and the text of its operands, where there is one.
pub fn row_of<'a>(
    operation: Operation,
    field: Option<OperationField<'a>>,
) -> Option<(StatementName<'a>, Row, Option<&'a [u8]>)> {
    let Some(field) = field else {
        let row = operation.row(&[])?;
        return Some((
            StatementName {
                operation,
                form: &[],
            },
            row,
            None,
        ));
    };
    if !operation.takes_form() {
        let row = operation.row(&[])?;
        return Some((
            StatementName {
                operation,
                form: &[],
            },
            row,
            Some(field.text),
        ));
    }
    let (form, rest) = next_operand(field.text);
    let row = operation.row(form)?;
    Some((StatementName { operation, form }, row, rest))
}

// Returns whether a keyword belongs to another one that was given.
fn is_partner(given: &GivenOperands<'_>, key: Key) -> bool
    requires { IsRead given.now }
{
    for rule in given.row.rules() {
        if let Rule::Together(one, other) = rule {
            if one.text() == key.text() && given.text(*other).is_some() {
                return true;
            }
            if other.text() == key.text() && given.text(*one).is_some() {
                return true;
            }
        }
    }
    false
}

// Returns for each keyword of a row whether it is missing.
fn lacking(given: &GivenOperands<'_>) -> [bool; 8]
    requires { IsRead given.now }
{
    let mut lacking = [false; 8];
    for (place, keyword) in given.keywords.iter().enumerate() {
        let needed = keyword.required || is_partner(given, keyword.key);
        if place < 8 && needed && given.text(keyword.key).is_none() {
            lacking[place] = true;
        }
    }
    lacking
}

// Describes what follows the operands: a word with an equals sign was meant as an operand.
fn remark_hint(text: &[u8]) -> Hint<'_> {
    let (_, rest) = next_word(text);
    let (remark, _) = next_word(rest);
    if remark.contains(&b'=') {
        Hint::Remark(remark)
    } else {
        Hint::Nothing
    }
}

// Describes what is missing, at the place after the operands.
fn missing_at<'a>(line: &[u8], text: &'a [u8], said: Message<'a>) -> FaultSpan<'a> {
    let (field, _) = split_once(text, b' ');
    FaultSpan {
        at: place_of(line, text).saturating_add(field.len()),
        count: 1,
        said,
        hint: remark_hint(text),
    }
}

// Returns the operands that a row requires of a field, and that are not there.
fn missing_of<'a>(
    called: StatementName<'a>,
    row: Row,
    text: Option<&'a [u8]>,
) -> Option<Message<'a>> {
    let mut given = GivenOperands::none(row);
    given.take_field(text).ok()?;
    Some(Message::Missing(
        called,
        Missing {
            row,
            keywords: lacking(&given),
            count: given.count,
        },
    ))
}

// Describes an operand in the place of the form.
fn form_missing<'a>(operation: Operation, field: &OperationField<'a>) -> Option<FaultSpan<'a>> {
    let (form, _) = next_operand(field.text);
    if !operation.takes_form() || operation.row(form).is_some() {
        return None;
    }
    Some(FaultSpan {
        at: field.at,
        count: form.len(),
        said: Message::Keyed(operation, form),
        hint: Hint::Nothing,
    })
}

/// Returns what is missing in a line.
pub fn missing(line: &[u8]) -> Option<FaultSpan<'_>> {
    let (word, rest) = second_word(line);
    let operation = read_operation(word)?;
    let Some(field) = field_of(line) else {
        if operation.takes_form() {
            return Some(missing_at(line, rest, Message::NoForm(operation)));
        }
        let (called, row, _) = row_of(operation, None)?;
        return Some(missing_at(line, rest, missing_of(called, row, None)?));
    };
    if let Some(found) = form_missing(operation, &field) {
        return Some(found);
    }
    let (called, row, text) = row_of(operation, Some(field))?;
    Some(missing_at(line, field.text, missing_of(called, row, text)?))
}

// Returns the rule that operands break, and a key of it that was given.
fn broken(given: &GivenOperands<'_>) -> Option<(Message<'static>, Key)>
    requires { IsRead given.now }
{
    for rule in given.row.rules() {
        match rule {
            Rule::Together(_, _) => {}
            Rule::Excludes(one, other) => {
                if given.text(*one).is_some() && given.text(*other).is_some() {
                    return Some((Message::Excluded(*one, *other), *other));
                }
            }
            Rule::SameLength(one, other) => {
                let lists = (given.text(*one), given.text(*other));
                if let (Some(these), Some(those)) = lists {
                    if count(between(these)) != count(between(those)) {
                        return Some((Message::Unequal(*one, *other), *other));
                    }
                }
            }
            Rule::Apart(_, _, other, others) => {
                let key = if given.text(*other).is_some() {
                    *other
                } else {
                    *others
                };
                return Some((Message::Both, key));
            }
        }
    }
    None
}

// Returns where the operand with a key begins, and how many bytes it has.
fn keyed(text: &[u8], key: &[u8]) -> Option<(usize, usize)> {
    let mut rest = text;
    'operands: loop {
        let (operand, more) = next_operand(rest);
        let (front, value) = split_once(operand, b'=');
        if value.is_some() && front == key {
            return Some((text.len().saturating_sub(rest.len()), operand.len()));
        }
        rest = more?;
    }
}

// Returns the rule that the operands of a text break.
fn broken_by(row: Row, text: &[u8]) -> Option<(Message<'static>, Key)> {
    let mut given = GivenOperands::none(row);
    given.take_field(Some(text)).ok()?;
    broken(&given)
}

/// Returns which operands of a line exclude each other.
pub fn conflict(line: &[u8]) -> Option<FaultSpan<'_>> {
    let (word, _) = second_word(line);
    let (_, row, text) = row_of(read_operation(word)?, field_of(line))?;
    let text = text?;
    let (said, key) = broken_by(row, text)?;
    let (from, count) = keyed(text, key.text().as_bytes())?;
    Some(FaultSpan {
        at: place_of(line, text).saturating_add(from),
        count,
        said,
        hint: Hint::Nothing,
    })
}
