//! The lines of the reports on subpools and pages, which are this project's own.

ghost use Rattle.std.specs.Prelude.{◌≡◌, ◌≤◌, ◌+◌, ◌++◌, length, if◌then◌else◌, codes};
ghost use Rattle.mvs_model.specs.Texts.{label_text, map_text, reply_line, subpool_text};
ghost use Rattle.line_text.specs.Writing.{Prints};

use line_text::text::LineText;
use line_text::{print_line, push_head, write_all};
use mvs_model::name::Name;
use mvs_model::report::{MapRun, SubpoolLine};
use mvs_model::subpool::SubNo;
use mvs_model::watched::{Failed, Watched};
use std::io::Write;

// Appends whether a task owns a subpool or shares it.
fn push_share(text: &mut LineText, owned: bool)
    requires { length text.old ≤ 100 }
    ensures text { text.new
        ≡ text.old ++ (if owned then codes " OWNED PLAIN " else codes " SHARED PLAIN ") }
    ensures len { length text.new ≤ length text.old + 14 }
{
    if owned {
        text.push_str(b" OWNED PLAIN ");
    } else {
        text.push_str(b" SHARED PLAIN ");
    }
}

// Appends the line for a number that a task has.
fn push_subpool(text: &mut LineText, line: &SubpoolLine)
    requires { length text.old ≤ 80 }
    ensures text { text.new ≡ text.old ++ subpool_text line.now }
    ensures len { length text.new ≤ length text.old + 55 }
{
    text.push_str(b"SP ");
    text.push_decimal(u32::from(line.number.get()));
    push_share(text, line.owned);
    text.push_decimal(line.plain);
    text.push_str(b" POOL ");
    text.push_decimal(line.pool);
}

/// Prints the line of REPORT SP for a number that the task has.
pub fn print_subpool_line<W: Write>(
    writer: &mut Watched<W>,
    line_number: u32,
    task: &Name,
    line: &SubpoolLine,
) -> Result<(), Failed>
    ensures { Prints W.contents writer.old writer.new result
        (reply_line line_number task.now (subpool_text line.now)) }
{
    let mut text = LineText::new();
    push_head(&mut text, line_number, task);
    push_subpool(&mut text, line);
    text.push_str(b"\n");
    write_all(writer, text.as_slice())
}

/// Prints the line of REPORT SP for a task that has no number.
pub fn print_no_subpool<W: Write>(
    writer: &mut Watched<W>,
    line_number: u32,
    task: &Name,
) -> Result<(), Failed>
    ensures { Prints W.contents writer.old writer.new result
        (reply_line line_number task.now (codes "SP NONE")) }
{
    print_line(writer, line_number, task, b"SP NONE")
}

// Appends the subpool of some pages.
fn push_holder(text: &mut LineText, holder: &Option<(SubNo, Name)>)
    requires { length text.old ≤ 80 }
    ensures text { text.new ≡ text.old ++ label_text holder.now }
    ensures len { length text.new ≤ length text.old + 40 }
{
    match holder {
        Some((number, owner)) => {
            text.push_str(b"SP ");
            text.push_decimal(u32::from(number.get()));
            text.push_str(b" OWNER ");
            text.push_name(owner);
        }
        None => text.push_str(b"FREE"),
    }
}

/// Prints the line of REPORT MAP for a run of pages.
pub fn print_map_run<W: Write>(
    writer: &mut Watched<W>,
    line_number: u32,
    task: &Name,
    run: &MapRun,
) -> Result<(), Failed>
    ensures { Prints W.contents writer.old writer.new result
        (reply_line line_number task.now (map_text run.now)) }
{
    let mut text = LineText::new();
    push_head(&mut text, line_number, task);
    text.push_str(b"MAP ");
    text.push_word(run.addr.get());
    text.push_str(b" ");
    text.push_word(run.len);
    text.push_str(b" ");
    push_holder(&mut text, &run.holder);
    text.push_str(b"\n");
    write_all(writer, text.as_slice())
}
