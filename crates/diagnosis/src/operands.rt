//! Where the operands of a line are.

ghost use Rattle.std.specs.Prelude.{◌≡◌, ◌≤◌, ◌<◌, ◌+◌, ◌^◌, ◌⊎◌, [], Some, drop, length, true, false, IfSome, MatchOption};
ghost use Rattle.mvs_model.specs.Grammar as grammar;
ghost use Rattle.mvs_model.specs.Reading.{operands_after_form, operands_of, operation_in, parts_within, row_of, rows_of, takes_form, words};
ghost use Rattle.job_script.specs.Operations.{operation_text};
ghost use Rattle.job_script.specs.Parted.{IsEnd, field_in};
ghost use Rattle.job_script.specs.Rows.{row_at};
ghost use Rattle.diagnosis.specs.Blame.{IsField};
ghost use Rattle.diagnosis.specs.AfterForm.{AreOperands, AreAfterForm};

use job_script::operations::{Operation, read_operation};
use job_script::rows::Row;
use job_script::split_once::{next_operand, next_word, skip_blanks};

/// The operation of a line, where the field after it begins, and the text from there on.
#[derive(Clone, Copy)]
pub struct OperationField<'a> {
    pub operation: Operation,
    pub at: usize,
    pub text: &'a [u8],
}

/// A row of the table, where the operands after its form begin, and the text from there on.
#[derive(Clone, Copy)]
pub struct FormOperands<'a> {
    pub row: Row,
    pub at: usize,
    pub text: &'a [u8],
}

/// Returns the second word of a line, which is empty if there is none, and the text after it.
pub fn second_word(line: &[u8]) -> (&[u8], &[u8])
    ensures word { result.0.now ≡ operation_in line.now }
    ensures rest { words result.1.now ≡ drop 2 (words line.now) }
    ensures end { IsEnd line.now result.1.now }
{
    let (_, rest) = next_word(line);
    next_word(rest)
}

/// Returns the field of operands of a line, where it has one.
pub fn field_of(line: &[u8]) -> Option<OperationField<'_>>
    ensures field { MatchOption result
        ((rows_of (operation_in line.now) ≡ []) ⊎ (operands_of line.now ≡ []))
        (λ f. (operation_in line.now ≡ operation_text f.operation)
        × IsField line.now f.at f.text.now
        × (operands_of line.now ≡ parts_within 0 (field_in f.text.now))) }
    ensures within { IfSome result (λ f. f.at + length f.text.now ≡ length line.now) }
{
    let (word, rest) = second_word(line);
    let Some(operation) = read_operation(word) else {
        return None;
    };
    if matches!(operation, Operation::Return) {
        return None;
    }
    let text = skip_blanks(rest);
    if text.is_empty() {
        return None;
    }
    Some(OperationField {
        operation,
        at: line.len() - text.len(),
        text,
    })
}

// Returns the operands after the form of an operation that has one.
fn operands_after_form<'a>(field: &OperationField<'a>) -> Option<FormOperands<'a>>
    requires room { field.now.at + length field.now.text.now < 2 ^ 63 }
    requires formed { takes_form (operation_text field.now.operation) ≡ true }
    ensures operands { (row : grammar.Row)
        → row_of (operation_text field.now.operation)
        (parts_within 0 (field_in field.now.text.now))
        ≡ Some row
        → MatchOption result (operands_after_form row (parts_within 0 (field_in field.now.text.now)) ≡ [])
        (λ o. (row_at o.row ≡ row)
        × AreAfterForm row field.now.at (parts_within 0 (field_in field.now.text.now)) o.at
        o.text.now) }
    ensures within { IfSome result
        (λ o. o.at + length o.text.now ≤ field.now.at + length field.now.text.now) }
{
    let (form, rest) = next_operand(field.text);
    let Some(row) = field.operation.row(form) else {
        return None;
    };
    let Some(text) = rest else {
        return None;
    };
    Some(FormOperands {
        row,
        at: field.at + form.len() + 1,
        text,
    })
}

// Returns the operands of an operation without a form.
fn without_form<'a>(field: &OperationField<'a>) -> Option<FormOperands<'a>>
    requires { takes_form (operation_text field.now.operation) ≡ false }
    ensures operands { (row : grammar.Row)
        → row_of (operation_text field.now.operation)
        (parts_within 0 (field_in field.now.text.now))
        ≡ Some row
        → MatchOption result (operands_after_form row (parts_within 0 (field_in field.now.text.now)) ≡ [])
        (λ o. (row_at o.row ≡ row)
        × AreAfterForm row field.now.at (parts_within 0 (field_in field.now.text.now)) o.at
        o.text.now) }
    ensures within { IfSome result
        (λ o. o.at + length o.text.now ≤ field.now.at + length field.now.text.now) }
{
    let Some(row) = field.operation.row(&[]) else {
        return None;
    };
    Some(FormOperands {
        row,
        at: field.at,
        text: field.text,
    })
}

/// Returns the operands of a line after the form, if there is at least one.
pub fn operands_in(line: &[u8]) -> Option<FormOperands<'_>>
    ensures operands { (row : grammar.Row)
        → row_of (operation_in line.now) (operands_of line.now) ≡ Some row
        → MatchOption result (operands_after_form row (operands_of line.now) ≡ [])
        (λ o. (row_at o.row ≡ row) × AreOperands row line.now o.at o.text.now) }
    ensures within { IfSome result (λ o. o.at + length o.text.now ≤ length line.now) }
{
    let Some(field) = field_of(line) else {
        return None;
    };
    if field.operation.takes_form() {
        operands_after_form(&field)
    } else {
        without_form(&field)
    }
}
