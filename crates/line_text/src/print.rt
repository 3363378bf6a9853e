//! The printed lines of a job: those of its steps, of its fault, and what all lines of a statement have in common.

ghost use Rattle.std.specs.Prelude.{◌≡◌, ◌<◌, ◌≤◌, ◌+◌, ◌++◌, length, codes, decimal};
ghost use Rattle.mvs_model.specs.Name.{trimmed};
ghost use Rattle.mvs_model.specs.Texts.{fault_number, fault_text, region_text, reply_line, step_ended};
ghost use Rattle.line_text.specs.Writing.{Prints};

use crate::text::LineText;
use mvs_model::card::Card;
use mvs_model::line::Fault;
use mvs_model::name::Name;
use mvs_model::watched::{Failed, Watched};
use std::io::Write;

/// Writes the bytes, in as many calls as it takes.
pub fn write_all<W: Write>(writer: &mut Watched<W>, bytes: &[u8]) -> Result<(), Failed>
    ensures { Prints W.contents writer.old writer.new result bytes.now }
{
    let mut at = 0;
    while at < bytes.len() {
        let count = writer.write(&bytes[at..])?;
        at += count;
    }
    Ok(())
}

/// Appends the number and the task of a line.
pub fn push_head(text: &mut LineText, line_number: u32, task: &Name)
    requires { length text.old ≤ 100 }
    ensures text { text.new
        ≡ text.old ++ decimal line_number ++ codes " " ++ trimmed task.now ++ codes " " }
    ensures len { length text.new ≤ length text.old + 20 }
{
    text.push_decimal(line_number);
    text.push_str(b" ");
    text.push_name(task);
    text.push_str(b" ");
}

/// Prints one line: its number, its task, and its text.
pub fn print_line<W: Write>(
    writer: &mut Watched<W>,
    line_number: u32,
    task: &Name,
    said: &[u8],
) -> Result<(), Failed>
    requires { length said.now ≤ 120 }
    ensures { Prints W.contents writer.old writer.new result
        (reply_line line_number task.now said.now) }
{
    let mut text = LineText::new();
    push_head(&mut text, line_number, task);
    text.push_str(said);
    text.push_str(b"\n");
    write_all(writer, text.as_slice())
}

// Appends the numbers of pages below and above.
fn push_region(text: &mut LineText, card: &Card)
    requires { length text.old ≤ 100 }
    ensures text { text.new ≡ text.old ++ region_text card.now }
    ensures len { length text.new ≤ length text.old + 40 }
{
    text.push_str(b"REGION BELOW ");
    text.push_decimal(card.below());
    text.push_str(b" ABOVE ");
    text.push_decimal(card.above());
}

/// Prints the reply to a REGION statement: the pages below and above.
pub fn print_region<W: Write>(
    writer: &mut Watched<W>,
    line_number: u32,
    card: &Card,
) -> Result<(), Failed>
    ensures { Prints W.contents writer.old writer.new result
        (reply_line line_number card.now.name (region_text card.now)) }
{
    let mut said = LineText::new();
    push_region(&mut said, card);
    print_line(writer, line_number, &card.name(), said.as_slice())
}

/// Prints the end of a step, by whether a task of it has abended.
pub fn print_step_end<W: Write>(writer: &mut Watched<W>, abended: bool) -> Result<(), Failed>
    ensures { Prints W.contents writer.old writer.new result (step_ended abended) }
{
    if abended {
        write_all(writer, b"STEP ENDED RC 8\n")
    } else {
        write_all(writer, b"STEP ENDED RC 0\n")
    }
}

/// Returns the number of a fault.
pub fn fault_digit(fault: Fault) -> u32
    ensures number { result ≡ fault_number fault }
    ensures digit { result < 10 }
{
    match fault {
        Fault::TooLong => 1,
        Fault::InvalidByte => 2,
        Fault::UnknownOperation => 3,
        Fault::InvalidOperand => 4,
        Fault::MissingOperand => 5,
        Fault::OutOfRange => 6,
        Fault::Repeated => 7,
        Fault::Conflicting => 8,
        Fault::OutOfPlace => 9,
    }
}

/// Prints the fault that ends a job.
pub fn print_fault<W: Write>(
    writer: &mut Watched<W>,
    line_number: u32,
    fault: Fault,
) -> Result<(), Failed>
    ensures { Prints W.contents writer.old writer.new result (fault_text line_number fault) }
{
    let mut text = LineText::new();
    text.push_decimal(line_number);
    text.push_str(b" JS0");
    text.push_decimal(fault_digit(fault));
    text.push_str(b"\nJOB FAULT RC 12\n");
    write_all(writer, text.as_slice())
}
