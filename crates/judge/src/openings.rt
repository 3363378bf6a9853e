//! Whether an output continues with an answer that a statement can have, where places decide it.

ghost use Rattle.std.specs.Prelude.{◌≡◌, ◌-◌, ◌++◌, ◌∷◌, [], IfOk, codes, length, take};
ghost use Rattle.mvs_model.specs.Codes as table;
ghost use Rattle.mvs_model.specs.declared.code.Family.TheVariants.{Located};
ghost use Rattle.judge.specs.Deciding.{BeginsBy};
ghost use Rattle.judge.specs.Excluding.{IsBegun, IsBegunOpen};
ghost use Rattle.judge.specs.Outline.{abend_opening, failed, head, openings, request_openings};

use crate::deciding::{begins, print_answer};
use crate::list_answers::begins_abend;
use mvs_model::answer::Answer;
use mvs_model::code::{Code, Form};
use mvs_model::codes::{bad_address, is_conditional, not_held, short};
use mvs_model::error::OutOfMemory;
use mvs_model::line::{SourceRequest, Statement};
use mvs_model::name::Name;
use std::alloc::Global;

/// An output from a line on: the number of the line, its task, and the text.
#[derive(Clone, Copy)]
pub struct Continued<'a> {
    pub line_number: u32,
    pub task: Name,
    pub text: &'a [u8],
}

// Appends to a text.
fn extended(mut text: Vec<u8>, back: &[u8]) -> Result<Vec<u8>, OutOfMemory>
    ensures { IfOk result (λ all. all.items ≡ text.items ++ back.now) }
{
    text.extend_from_slice(back).map_err(|_| OutOfMemory)?;
    Ok(text)
}

// Returns a text without its last three bytes.
fn shortened(mut text: Vec<u8>) -> Vec<u8>
    ensures { result.items ≡ take (length text.items - 3) text.items }
{
    let len = text.as_slice().len();
    text.truncate(len.saturating_sub(3));
    text
}

// Returns the number of a line and its task, as they are printed.
pub(crate) fn print_head(
    alloc: Global,
    line_number: u32,
    task: &Name,
) -> Result<Vec<u8>, OutOfMemory>
    ensures { IfOk result (λ text. text.items ≡ head line_number task.now) }
{
    let line = print_answer(Vec::new(alloc), line_number, task, &Answer::Done)?;
    Ok(shortened(line))
}

// Returns whether the output continues with an answer that begins with this.
fn begins_front(alloc: Global, continued: &Continued, front: &[u8]) -> Result<bool, OutOfMemory>
    ensures { IfOk result
        (BeginsBy continued.now.text.now
        (head continued.now.line_number continued.now.task ++ front.now)) }
{
    let text = print_head(alloc, continued.line_number, &continued.task)?;
    let all = extended(text, front)?;
    Ok(begins(continued.text, all.as_slice()))
}

// Returns whether it continues with an abend with this code.
fn begins_code(alloc: Global, continued: &Continued, code: Code) -> Result<bool, OutOfMemory>
    ensures { IfOk result
        (BeginsBy continued.now.text.now
        (head continued.now.line_number continued.now.task ++ abend_opening code)) }
{
    begins_abend(
        alloc,
        continued.line_number,
        &continued.task,
        code,
        continued.text,
    )
}

// Returns whether it continues with the answer to a request that fails.
fn begins_failed(
    alloc: Global,
    continued: &Continued,
    form: Form,
    code: Code,
) -> Result<bool, OutOfMemory>
    ensures { IfOk result
        (BeginsBy continued.now.text.now
        (head continued.now.line_number continued.now.task ++ failed form code)) }
{
    if is_conditional(form) {
        begins_front(alloc, continued, b"RC 4\n")
    } else {
        begins_code(alloc, continued, code)
    }
}

// Returns whether it continues with the answer of a request that obtains, granted with this beginning.
fn begins_obtain(
    alloc: Global,
    continued: &Continued,
    form: Form,
    granted: &[u8],
) -> Result<bool, OutOfMemory>
    ensures { IfOk result
        (IsBegun continued.now.line_number continued.now.task
        (granted.now ∷ failed form (table.short (table.family form)) ∷ [])
        continued.now.text.now) }
{
    let is_granted = begins_front(alloc, continued, granted)?;
    let is_failed = begins_failed(alloc, continued, form, short(form))?;
    Ok(is_granted | is_failed)
}

// Returns whether it continues with the answer of a release.
fn begins_release(alloc: Global, continued: &Continued, form: Form) -> Result<bool, OutOfMemory>
    ensures { IfOk result
        (IsBegun continued.now.line_number continued.now.task
        (codes "RC 0\n" ∷ failed form (table.not_held (table.family form))
        ∷ abend_opening (table.bad_address (table.family form)) ∷ []) continued.now.text.now) }
{
    let is_granted = begins_front(alloc, continued, b"RC 0\n")?;
    let is_failed = begins_failed(alloc, continued, form, not_held(form))?;
    let is_off = begins_code(alloc, continued, bad_address(form))?;
    Ok(is_granted | (is_failed | is_off))
}

// Returns whether it continues with the answer of CPOOL BUILD.
fn begins_build(alloc: Global, continued: &Continued) -> Result<bool, OutOfMemory>
    ensures { IfOk result
        (IsBegun continued.now.line_number continued.now.task
        (codes "RC 0\n" ∷ abend_opening (table.short Located)
        ∷ abend_opening table.too_many_pools ∷ []) continued.now.text.now) }
{
    let is_granted = begins_front(alloc, continued, b"RC 0\n")?;
    let is_short = begins_code(alloc, continued, Code::SHORTAGE)?;
    let is_many = begins_code(alloc, continued, Code::TOO_MANY_POOLS)?;
    Ok(is_granted | (is_short | is_many))
}

// Returns whether it continues with this, or with an abend with this code.
fn begins_either(
    alloc: Global,
    continued: &Continued,
    granted: &[u8],
    code: Code,
) -> Result<bool, OutOfMemory>
    ensures { IfOk result
        (IsBegun continued.now.line_number continued.now.task
        (granted.now ∷ abend_opening code ∷ []) continued.now.text.now) }
{
    let is_granted = begins_front(alloc, continued, granted)?;
    let is_abend = begins_code(alloc, continued, code)?;
    Ok(is_granted | is_abend)
}

// Returns whether it continues with the answer of a conditional CPOOL GET.
fn begins_cell(alloc: Global, continued: &Continued) -> Result<bool, OutOfMemory>
    ensures { IfOk result
        (IsBegun continued.now.line_number continued.now.task
        (codes "CELL\n" ∷ codes "NO CELL\n" ∷ []) continued.now.text.now) }
{
    let is_granted = begins_front(alloc, continued, b"CELL\n")?;
    let is_refused = begins_front(alloc, continued, b"NO CELL\n")?;
    Ok(is_granted | is_refused)
}

// Returns whether it continues with the answer of a request.
fn begins_request(
    alloc: Global,
    continued: &Continued,
    written: &SourceRequest,
) -> Result<bool, OutOfMemory>
    ensures { IfOk result
        (IsBegun continued.now.line_number continued.now.task (request_openings written.now)
        continued.now.text.now) }
{
    match written {
        SourceRequest::Obtain {
            form,
            variable: true,
            ..
        } => begins_obtain(alloc, continued, *form, b"RC 0 LENGTH "),
        SourceRequest::Obtain {
            form,
            variable: false,
            ..
        } => begins_obtain(alloc, continued, *form, b"RC 0\n"),
        SourceRequest::ObtainList { form, .. } => begins_obtain(alloc, continued, *form, b"RC 0\n"),
        SourceRequest::Release { form, .. } => begins_release(alloc, continued, *form),
        SourceRequest::ReleaseArea { form, .. } => begins_release(alloc, continued, *form),
        SourceRequest::ReleaseList { form, .. } => begins_release(alloc, continued, *form),
        SourceRequest::Build { .. } => begins_build(alloc, continued),
        SourceRequest::Get {
            conditional: true,
            ..
        } => begins_cell(alloc, continued),
        SourceRequest::Get {
            conditional: false,
            ..
        } => begins_either(alloc, continued, b"CELL\n", Code::SHORTAGE),
        SourceRequest::Free { .. } => begins_either(
            alloc,
            continued,
            b"RC 0\n",
            Code::NO_SUCH_CELL,
        ),
        SourceRequest::Show { .. } => begins_either(
            alloc,
            continued,
            b"DATA +0000 ",
            Code::NO_ACCESS,
        ),
        SourceRequest::Put { .. } => begins_either(alloc, continued, b"OK\n", Code::NO_ACCESS),
        SourceRequest::Move { .. } => begins_either(alloc, continued, b"OK\n", Code::NO_ACCESS),
        SourceRequest::ReleaseWhole { .. }
        | SourceRequest::Delete { .. }
        | SourceRequest::Attach { .. }
        | SourceRequest::Return
        | SourceRequest::Abend(_) => Ok(false),
    }
}

// Returns whether it continues with an answer that begins with this.
fn begins_with(alloc: Global, continued: &Continued, front: &[u8]) -> Result<bool, OutOfMemory>
    ensures { IfOk result
        (IsBegun continued.now.line_number continued.now.task (front.now ∷ [])
        continued.now.text.now) }
{
    let is_begun = begins_front(alloc, continued, front)?;
    Ok(is_begun)
}

/// Returns whether an output continues with an answer that a statement can have, where places decide it.
pub fn begins_open(
    alloc: Global,
    continued: &Continued,
    statement: &Statement,
) -> Result<bool, OutOfMemory>
    ensures { IfOk result
        (IsBegunOpen continued.now.line_number continued.now.task statement.now
        continued.now.text.now) }
{
    match statement {
        Statement::Request(written) => begins_request(alloc, continued, written),
        Statement::Where(_) => begins_with(alloc, continued, b"AT "),
        Statement::ReportSubpools => begins_with(alloc, continued, b"SP "),
        Statement::ReportMap => Ok(true),
        Statement::Region { .. } => Ok(false),
    }
}
