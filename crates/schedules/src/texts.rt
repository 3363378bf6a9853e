//! The texts of the answers to a statement.

ghost use Rattle.std.specs.Prelude.{◌≡◌, ◌≤◌, decimal, drop, length, take};
ghost use Rattle.schedules.specs.Texts.{bytes_before_address, compared, head_length};

use crate::step_line::StepLine;
use line_text::text::LineText;

/// Returns how many digits a number has.
pub(crate) fn digits(number: u32) -> usize
    ensures { result ≡ length (decimal number) }
{
    let mut text = LineText::new();
    text.push_decimal(number);
    text.len()
}

/// Returns a text without its first bytes.
pub(crate) fn without_front(text: &[u8], count: usize) -> &[u8]
    ensures { result.now ≡ drop count text.now }
{
    if count < text.len() {
        &text[count..]
    } else {
        &[]
    }
}

// Returns the first bytes of a text.
fn front(text: &[u8], count: usize) -> &[u8]
    ensures { result.now ≡ take count text.now }
{
    if count < text.len() {
        &text[..count]
    } else {
        text
    }
}

/// Returns how many bytes come before the text of an answer: the number of the line, and the task.
pub(crate) fn head_length(line: &StepLine) -> usize
    ensures head { result ≡ head_length line.now }
    ensures few { result ≤ 240 }
{
    let mut text = LineText::new();
    text.push_decimal(line.number);
    text.push_name(&line.task);
    text.len() + 2
}

// Returns how many bytes an answer has without its address.
fn bytes_before_address(head: usize, text: &[u8]) -> usize
    requires { head ≤ 240 }
    ensures { result ≡ bytes_before_address head text.now }
{
    let answer = without_front(text, head);
    if front(answer, 3) == b"AT ".as_slice() {
        head + 2
    } else if front(answer, 4) == b"MAP ".as_slice() {
        head + 3
    } else {
        text.len()
    }
}

/// Returns the text of an answer by which it is compared with others.
pub(crate) fn compared(line: &StepLine, mut text: Vec<u8>) -> Vec<u8>
    ensures { result.items ≡ compared line.now text.items }
{
    if line.ignores_addresses {
        let len = bytes_before_address(head_length(line), &text);
        text.truncate(len);
    }
    text
}
