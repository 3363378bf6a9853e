//! What of a line is to blame for a fault that is none of an operand.

use crate::hint::Hint;
use crate::lacking::{conflict, missing};
use crate::message::Message;
use crate::near::{near_form, near_operation};
use crate::operands::{OperationField, field_of, second_word};
use job_script::MOST_LINE_BYTES;
use job_script::addresses::is_name;
use job_script::operations::read_operation;
use job_script::split_once::{next_operand, skip_blanks, split_once};
use mvs_model::line::Fault;
use std::alloc::Global;

/// A number of bytes of a line from a place on, what is wrong with them, and a hint.
#[derive(Clone, Copy)]
pub struct FaultSpan<'a> {
    pub at: usize,
    pub count: usize,
    pub said: Message<'a>,
    pub hint: Hint<'a>,
}

/// Returns where the end of a line begins.
pub fn place_of(line: &[u8], end: &[u8]) -> usize {
    line.len().saturating_sub(end.len())
}

// Returns the hint for a byte that no script may have.
fn byte_hint(line: &[u8], at: usize, byte: u8) -> Hint<'static> {
    match byte {
        b'\t' => Hint::Says("this is a tab: use blanks"),
        b'\r' if at.saturating_add(1) == line.len() => {
            Hint::Says("this file has Windows line ends")
        }
        0xEF if at == 0 => Hint::Says("a byte order mark: save the file without it"),
        0..=0x7F => Hint::Says("not a byte of a text: is the file a script?"),
        _ => Hint::Says("only ASCII is allowed, even in remarks"),
    }
}

// Returns the first byte that no script may have.
fn invalid_byte(line: &[u8]) -> FaultSpan<'static> {
    for (at, byte) in line.iter().enumerate() {
        if *byte < b' ' || *byte > b'~' {
            return FaultSpan {
                at,
                count: 1,
                said: Message::Byte(*byte),
                hint: byte_hint(line, at, *byte),
            };
        }
    }
    whole(line, Message::Something)
}

// Returns the fault of a whole line.
fn whole<'a>(line: &[u8], said: Message<'a>) -> FaultSpan<'a> {
    FaultSpan {
        at: 0,
        count: line.len(),
        said,
        hint: Hint::Nothing,
    }
}

// Returns the hint for the operation of another macro that obtains or releases storage, or that scripts of beginners have.
fn other_operation(word: &[u8]) -> Option<Hint<'static>> {
    match word {
        b"IARV64" | b"IARCP64" | b"IARST64" => {
            Some(Hint::Says("storage above the bar is not simulated"))
        }
        b"ATTACHX" => Some(Hint::Meant("ATTACH")),
        b"WAIT"
        | b"POST"
        | b"DETACH"
        | b"LOAD"
        | b"LINK"
        | b"XCTL"
        | b"DELETE"
        | b"ESTAE"
        | b"DSPSERV"
        | b"EXIT" => Some(Hint::Says("it exists on MVS, but is not simulated")),
        _ => None,
    }
}

// Describes a word after a task that is not an operation.
fn operation_hint(alloc: Global, task: &[u8], word: &[u8]) -> Hint<'static> {
    if read_operation(task).is_some() {
        return Hint::Says("is the task name in column 1 missing?");
    }
    if word.iter().any(|byte| byte.is_ascii_lowercase()) {
        return Hint::Says("use upper case");
    }
    if let Some(hint) = other_operation(word) {
        return hint;
    }
    match near_operation(alloc, word) {
        Some(operation) => Hint::Meant(operation),
        None => Hint::Nothing,
    }
}

// Describes the first word of a line, which should be the name of a task.
fn task_fault<'a>(task: &'a [u8], line: &'a [u8]) -> FaultSpan<'a> {
    if task.is_empty() {
        return FaultSpan {
            at: 0,
            count: place_of(line, skip_blanks(line)),
            said: Message::Blank,
            hint: Hint::Says("column 1 must have the task name"),
        };
    }
    let lower = task.iter().any(|byte| byte.is_ascii_lowercase());
    let hint = if lower {
        Hint::Says("use upper case")
    } else {
        Hint::Says("1 to 8 of A-Z 0-9 @ # $, not beginning with a digit")
    };
    FaultSpan {
        at: 0,
        count: task.len(),
        said: Message::Task(task),
        hint,
    }
}

// Returns the form of a field of operands.
fn form_fault<'a>(alloc: Global, field: &OperationField<'a>) -> FaultSpan<'a> {
    let (form, _) = next_operand(field.text);
    let hint = match near_form(alloc, field.operation, form) {
        _ if form.iter().any(|byte| byte.is_ascii_lowercase()) => { Hint::Says("use upper case") }
        Some(other) => Hint::Meant(other),
        None => Hint::Nothing,
    };
    FaultSpan {
        at: field.at,
        count: form.len(),
        said: Message::Form(field.operation, form),
        hint,
    }
}

// Returns what is wrong with the task, the operation or the form.
fn unknown(alloc: Global, line: &[u8]) -> FaultSpan<'_> {
    let (task, rest) = split_once(line, b' ');
    if !is_name(task) {
        return task_fault(task, line);
    }
    let text = match rest {
        Some(rest) => skip_blanks(rest),
        None => &[],
    };
    if text.is_empty() {
        let hint = operation_hint(alloc, task, &[]);
        return FaultSpan {
            at: line.len(),
            count: 1,
            said: Message::NoOperation,
            hint,
        };
    }
    let (word, _) = split_once(text, b' ');
    match field_of(line) {
        Some(field) if read_operation(word).is_some() => form_fault(alloc, &field),
        _ => FaultSpan {
            at: place_of(line, text),
            count: word.len(),
            said: Message::Operation(word),
            hint: operation_hint(alloc, task, word),
        },
    }
}

// Returns the fault of a first statement that is not REGION, or of a script without a statement.
fn out_of_place(line: &[u8]) -> FaultSpan<'_> {
    if line.is_empty() {
        return whole(line, Message::NoStatement);
    }
    let (word, rest) = second_word(line);
    let blank = if rest.is_empty() { 0 } else { 1 };
    let end = place_of(line, rest);
    FaultSpan {
        at: end.saturating_sub(word.len()).saturating_sub(blank),
        count: word.len(),
        said: Message::NotFirst,
        hint: Hint::Says("for example JOB REGION BELOW=4"),
    }
}

// Describes a line that is too long. Only bytes that a line can have are checked, and they are there however it was read.
fn too_long(line: &[u8]) -> Message<'_> {
    let front = &line[..line.len().min(MOST_LINE_BYTES)];
    if front.contains(&0) {
        Message::NoText
    } else {
        Message::TooLong
    }
}

/// Returns what of a line is to blame for its fault, where that is none of an operand.
pub fn find_fault<'a>(alloc: Global, line: &'a [u8], fault: Fault) -> FaultSpan<'a> {
    match fault {
        Fault::TooLong => FaultSpan {
            at: MOST_LINE_BYTES,
            count: line.len().saturating_sub(MOST_LINE_BYTES),
            said: too_long(line),
            hint: Hint::Nothing,
        },
        Fault::InvalidByte => invalid_byte(line),
        Fault::UnknownOperation => unknown(alloc, line),
        Fault::OutOfPlace => out_of_place(line),
        Fault::MissingOperand => missing(line).unwrap_or(whole(line, Message::Something)),
        Fault::Conflicting => conflict(line).unwrap_or(whole(line, Message::Something)),
        Fault::InvalidOperand | Fault::Repeated | Fault::OutOfRange => {
            whole(line, Message::Something)
        }
    }
}
