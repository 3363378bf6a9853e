//! Whether an output goes on with the answer of a run in another shape, whatever its hexadecimal digits are.

ghost use Rattle.std.specs.Prelude.{◌≡◌, ◌++◌, List, ℕ, true, IfOk};
ghost use Rattle.judge.specs.Outline.{head};
ghost use Rattle.judge.specs.Shapes.{AreUnlike, AreUnlikeAfter, DiffersInShape, DiffersLater, DiffersMasked, byte_at, is_fall, later, masked_byte, sign_in};

use crate::deciding::{begins, text_after};
use crate::openings::print_head;
use job_script::digits::is_hex_digit;
use job_script::split_once::split_once;
use mvs_model::error::OutOfMemory;
use mvs_model::line::{Line, Statement};
use mvs_model::name::Name;
use std::alloc::Global;

// Returns a byte of a text, or 0 behind its end.
fn byte_at(text: &[u8], at: usize) -> u8
    ensures { result ≡ byte_at text.now at }
{
    if at < text.len() { text[at] } else { 0 }
}

// Returns whether two texts have the same byte there.
fn is_same_at(one: &[u8], other: &[u8], at: usize) -> bool
    ensures { result ≡ true → byte_at one.now at ≡ byte_at other.now at }
{
    byte_at(one, at) == byte_at(other, at)
}

// Returns whether a text is an address.
fn is_address(text: &[u8]) -> bool
    ensures { result ≡ true → (byte_at text.now 0 ≡ 65) × (byte_at text.now 1 ≡ 84) }
{
    byte_at(text, 0) == b'A' && byte_at(text, 1) == b'T'
}

// Returns whether two texts are the same answer.
fn is_same_answer(one: &[u8], other: &[u8]) -> bool
    ensures { result ≡ true → sign_in one.now ≡ sign_in other.now }
{
    if is_address(one) {
        return is_address(other);
    }
    is_same_at(one, other, 0)
        && is_same_at(one, other, 1)
        && is_same_at(one, other, 3)
        && is_same_at(one, other, 4)
        && is_same_at(one, other, 6)
}

// Returns whether a text is an abend.
fn is_abend(text: &[u8]) -> bool
    ensures { result ≡ true → is_fall (sign_in text.now) ≡ true }
{
    byte_at(text, 0) == b'A' && byte_at(text, 1) != b'T'
}

// Returns 0 for a hexadecimal digit, and another byte as it is.
fn masked_byte(byte: u8) -> u8
    ensures { result ≡ masked_byte byte }
{
    if is_hex_digit(byte) { b'0' } else { byte }
}

// Returns whether a text does not begin as another one does, whatever the hexadecimal digits are.
fn differs_masked(text: &[u8], front: &[u8]) -> bool
    ensures { result ≡ true → DiffersMasked front.now text.now }
{
    let mut at = 0;
    'bytes: while at < front.len() {
        if at >= text.len() {
            return true;
        }
        if masked_byte(text[at]) != masked_byte(front[at]) {
            return true;
        }
        at += 1;
    }
    false
}

// Returns the lines of a text after the first one.
fn later(text: &[u8]) -> &[u8]
    ensures { result.now ≡ later text.now }
{
    match split_once(text, b'\n').1 {
        Some(rest) => rest,
        None => &[],
    }
}

// Returns whether the lines of a text after its first one do not begin as those of another text.
fn differs_later(text: &[u8], front: &[u8]) -> bool
    ensures { result ≡ true → DiffersLater front.now text.now }
{
    !begins(later(text), later(front))
}

// Returns whether two texts are the same answer in another shape.
fn are_unlike(front: &[u8], text: &[u8]) -> bool
    ensures { result ≡ true → AreUnlike front.now text.now }
{
    if !is_same_answer(front, text) {
        return false;
    }
    if differs_masked(text, front) {
        return true;
    }
    is_abend(front) && differs_later(text, front)
}

// Returns whether two texts with the same beginning go on with the same answer in another shape.
fn are_unlike_after(front: &[u8], printed: &[u8], text: &[u8]) -> bool
    ensures { result ≡ true → AreUnlikeAfter front.now printed.now text.now }
{
    if !begins(printed, front) || !begins(text, front) {
        return false;
    }
    are_unlike(
        text_after(printed, front.len()),
        text_after(text, front.len()),
    )
}

// Returns whether two texts have the beginning of an answer of a task, and go on with the same answer in another shape.
fn differs_at(
    alloc: Global,
    line_number: u32,
    task: &Name,
    printed: &[u8],
    left: &[u8],
) -> Result<bool, OutOfMemory>
    ensures { IfOk result
        (λ b. b ≡ true → AreUnlikeAfter (head line_number task.now) printed.now left.now) }
{
    let front = print_head(alloc, line_number, task)?;
    Ok(are_unlike_after(front.as_slice(), printed, left))
}

/// Returns whether a line is a request or a WHERE, and an output goes on with the answer that it has in a run, but in another shape.
pub fn differs_in_shape(
    alloc: Global,
    line_number: u32,
    read: &Line,
    printed: &[u8],
    left: &[u8],
) -> Result<bool, OutOfMemory>
    ensures { IfOk result
        (λ b. b ≡ true → DiffersInShape line_number read.now printed.now left.now) }
{
    match read {
        Line::Statement(task, Statement::Request(_)) => {
            let is_other = differs_at(alloc, line_number, task, printed, left)?;
            Ok(is_other)
        }
        Line::Statement(task, Statement::Where(_)) => {
            let is_other = differs_at(alloc, line_number, task, printed, left)?;
            Ok(is_other)
        }
        Line::Statement(
            _,
            Statement::ReportSubpools | Statement::ReportMap | Statement::Region { .. },
        ) => Ok(false),
        Line::Nothing => Ok(false),
    }
}
