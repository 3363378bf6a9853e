//! A statement, by its operation and its operands.

ghost use Rattle.std.specs.Prelude.{◌≡◌, true, false};
ghost use Rattle.std.specs.List.{list_any};
ghost use Rattle.mvs_model.specs.Reading.{has_key, is_conflict, is_empty, operands_in, statement_of, takes_form};
ghost use Rattle.job_script.specs.GivenOperands.{IsRead, by_place, field_now};
ghost use Rattle.job_script.specs.Operations.{operation_text};
ghost use Rattle.job_script.specs.Rowed.{RowReading, FormReading, as_field};
ghost use Rattle.job_script.specs.Rows.{row_at};
ghost use Rattle.job_script.specs.LineMeaning.{filled, line_of_task};
ghost use Rattle.job_script.specs.Parted.{field_in};

use crate::given::GivenOperands;
use crate::keys::Key;
use crate::operations::Operation;
use crate::rows::Row;
use crate::split_once::next_operand;
use mvs_model::line::{Fault, Line, SourceRequest, Statement};
use mvs_model::name::Name;

impl GivenOperands<'_> {
    // Returns the line for operands that were all accepted, and none of which excludes another.
    fn fill(&self, task: Name, form: &[u8], line: &mut Line) -> Result<(), Fault>
        requires read { IsRead self.now }
        requires apart { list_any (is_conflict (by_place self.now)) (row_at self.now.row).rules
            ≡ false }
        ensures { filled line.new result
            ≡ line_of_task task
            (statement_of (row_at self.now.row).meaning form.now (by_place self.now)) }
    {
        match self.row {
            Row::Region => self.region(task, line),
            Row::GetmainFixed => self.obtain(task, form, Key::Lv, Key::A, line),
            Row::GetmainFixedPlaced => self.obtain(task, form, Key::Lv, Key::A, line),
            Row::GetmainVariable => self.obtain(task, form, Key::Lv, Key::A, line),
            Row::GetmainVariablePlaced => self.obtain(task, form, Key::Lv, Key::A, line),
            Row::GetmainList => self.obtain_list(task, form, line),
            Row::StorageObtain => self.obtain(task, form, Key::Length, Key::Addr, line),
            Row::FreemainOrWhole => self.release(task, form, Key::Lv, Key::A, line),
            Row::FreemainPlace => self.release(task, form, Key::Lv, Key::A, line),
            Row::FreemainArea => self.release_area(task, form, line),
            Row::FreemainList => self.release_list(task, form, line),
            Row::StorageRelease => self.release(task, form, Key::Length, Key::Addr, line),
            Row::CpoolBuild => self.build(task, line),
            Row::CpoolGet => self.get(task, line),
            Row::CpoolFree => self.free(task, line),
            Row::CpoolDelete => self.delete(task, line),
            Row::Attach => self.attach(task, line),
            Row::Return => {
                *line = Line::Statement(task, Statement::Request(SourceRequest::Return));
                Ok(())
            }
            Row::Abend => self.abend(task, line),
            Row::Put => self.put(task, line),
            Row::Show => self.show(task, line),
            Row::Move => self.move_bytes(task, line),
            Row::Where => self.ask_where(task, line),
            Row::Report => {
                if form == b"MAP".as_slice() {
                    *line = Line::Statement(task, Statement::ReportMap);
                } else {
                    *line = Line::Statement(task, Statement::ReportSubpools);
                }
                Ok(())
            }
        }
    }
}

// Parses the operands after a form with a row of the table.
fn read_row(
    task: Name,
    row: Row,
    form: &[u8],
    field: Option<&[u8]>,
    line: &mut Line,
) -> Result<(), Fault>
    ensures { RowReading (row_at row) task form.now (operands_in (field_now field.entry))
        (filled line.new result) }
{
    let mut given = GivenOperands::none(row);
    given.take_field(field)?;
    given.check()?;
    given.fill(task, form, line)
}

// Returns whether an operand has a key.
fn has_key(operand: &[u8]) -> bool
    ensures { result ≡ has_key operand.now }
{
    operand.iter().any(|byte| *byte == b'=')
}

// Returns whether the field that a text starts with is empty.
fn is_empty(field: &[u8]) -> bool
    ensures { result ≡ is_empty (field_in field.now) }
{
    match field {
        [] => true,
        [first, ..] => *first == b' ',
    }
}

// Parses the form of an operation and the operands after it.
fn read_with_form(
    task: Name,
    operation: Operation,
    field: &[u8],
    line: &mut Line,
) -> Result<(), Fault>
    requires { takes_form (operation_text operation) ≡ true }
    ensures { FormReading (operation_text operation) task
        (operands_in (as_field (field_in field.now))) (filled line.new result) }
{
    if is_empty(field) {
        return Err(Fault::MissingOperand);
    }
    let (form, rest) = next_operand(field);
    let Some(row) = operation.row(form) else {
        if has_key(form) {
            return Err(Fault::MissingOperand);
        }
        return Err(Fault::UnknownOperation);
    };
    read_row(task, row, form, rest, line)
}

// Returns the text of a field, where it has operands: it has none where it is empty.
fn as_field(field: &[u8]) -> Option<&[u8]>
    ensures { field_now result ≡ as_field (field_in field.now) }
{
    match field {
        [] => None,
        [b' ', ..] => None,
        _ => Some(field),
    }
}

// Parses the operands of an operation without a form.
fn read_without_form(
    task: Name,
    operation: Operation,
    field: &[u8],
    line: &mut Line,
) -> Result<(), Fault>
    requires { takes_form (operation_text operation) ≡ false }
    ensures { FormReading (operation_text operation) task
        (operands_in (as_field (field_in field.now))) (filled line.new result) }
{
    let Some(row) = operation.row(&[]) else {
        return Err(Fault::UnknownOperation);
    };
    read_row(task, row, &[], as_field(field), line)
}

/// Reads what an operation says with the operands of the field that a text starts with, which has none where it is empty.
pub fn read_operands(
    task: Name,
    operation: Operation,
    field: &[u8],
    line: &mut Line,
) -> Result<(), Fault>
    ensures { FormReading (operation_text operation) task
        (operands_in (as_field (field_in field.now))) (filled line.new result) }
{
    if operation.takes_form() {
        read_with_form(task, operation, field, line)
    } else {
        read_without_form(task, operation, field, line)
    }
}
