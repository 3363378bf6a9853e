//! The lines about the subpools that are freed at the end of a task, and about those that remain.

ghost use Rattle.std.specs.Prelude.{◌≡◌, ◌≤◌, ◌+◌, ◌++◌, length};
ghost use Rattle.explanation.specs.FactTexts.{freed_line, freed_text_of, pages_text, stays_line, stays_text};
ghost use Rattle.line_text.specs.Writing.{Prints};

use crate::reasons::end_line;
use line_text::text::LineText;
use line_text::write_all;
use mvs_model::name::Name;
use mvs_model::subpool::SubNo;
use mvs_model::watched::{Failed, Watched};
use std::io::Write;

// Appends a number of pages.
pub(crate) fn push_pages(text: &mut LineText, pages: u32)
    requires { length text.old ≤ 100 }
    ensures text { text.new ≡ text.old ++ pages_text pages }
    ensures len { length text.new ≤ length text.old + 16 }
{
    text.push_decimal(pages);
    if pages == 1 {
        text.push_str(b" page");
    } else {
        text.push_str(b" pages");
    }
}

// Appends that a subpool is freed.
fn push_freed(text: &mut LineText, number: u32, owner: &Name, bytes: u32, pages: u32)
    requires { length text.old ≤ 2 }
    ensures text { text.new ≡ text.old ++ freed_text_of number owner.now bytes pages }
    ensures len { length text.new ≤ length text.old + 100 }
{
    text.push_str(b"SP ");
    text.push_decimal(number);
    text.push_str(b" of ");
    text.push_name(owner);
    text.push_str(b" is freed: ");
    text.push_decimal(bytes);
    text.push_str(b" bytes in ");
    push_pages(text, pages);
    text.push_str(b". (rule 52)");
}

/// Prints the line for a subpool that is freed with its owner: its number, the owner, the bytes that it held, and its pages.
pub fn print_freed<W: Write>(
    writer: &mut Watched<W>,
    number: SubNo,
    owner: &Name,
    bytes: u32,
    pages: u32,
) -> Result<(), Failed>
    ensures { Prints W.contents writer.old writer.new result
        (freed_line number owner.now bytes pages) }
{
    let mut text = LineText::new();
    text.push_str(b"* ");
    push_freed(&mut text, u32::from(number.get()), owner, bytes, pages);
    end_line(&mut text);
    write_all(writer, text.as_slice())
}

// Appends that a subpool remains which a task shared.
fn push_stays(text: &mut LineText, number: u32, owner: &Name, task: &Name)
    requires { length text.old ≤ 2 }
    ensures text { text.new ≡ text.old ++ stays_text number owner.now task.now }
    ensures len { length text.new ≤ length text.old + 80 }
{
    text.push_str(b"SP ");
    text.push_decimal(number);
    text.push_str(b" of ");
    text.push_name(owner);
    text.push_str(b" remains: ");
    text.push_name(task);
    text.push_str(b" shared it. (rule 53)");
}

/// Prints the line that says that a subpool stays with its owner where a task ends that shared it.
pub fn print_stays<W: Write>(
    writer: &mut Watched<W>,
    number: SubNo,
    owner: &Name,
    task: &Name,
) -> Result<(), Failed>
    ensures { Prints W.contents writer.old writer.new result
        (stays_line number owner.now task.now) }
{
    let mut text = LineText::new();
    text.push_str(b"* ");
    push_stays(&mut text, u32::from(number.get()), owner, task);
    end_line(&mut text);
    write_all(writer, text.as_slice())
}
