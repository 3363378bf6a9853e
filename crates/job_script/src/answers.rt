//! The lines of the answers to requests, of one line each or an abend.

ghost use Rattle.std.specs.Prelude.{◌≡◌, ◌≤◌, ◌+◌, ◌++◌, List, length, false, codes};
ghost use Rattle.mvs_model.specs.Name.{trimmed};
ghost use Rattle.mvs_model.specs.State.{State};
ghost use Rattle.mvs_model.specs.FullAnswers.{has_long_data, full_answer};
ghost use Rattle.mvs_model.specs.Texts.{abend_lines, answer_text, code_text, reply_line, one_line_text};
ghost use Rattle.line_text.specs.Writing.{Prints};

use line_text::text::LineText;
use line_text::{push_head, write_all};
use mvs_model::answer::Answer;
use mvs_model::code::Code;
use mvs_model::name::Name;
use mvs_model::watched::{Failed, Watched};
use std::io::Write;

// Appends the code of an abend: a system code in three hexadecimal digits, a user code in four decimal ones.
fn push_code(text: &mut LineText, code: Code)
    requires { length text.old ≤ 100 }
    ensures text { text.new ≡ text.old ++ code_text code }
    ensures len { length text.new ≤ length text.old + 5 }
{
    match code {
        Code::System(number) => {
            text.push_str(b"S");
            text.push_last(16, 3, u32::from(number));
        }
        Code::User(number) => {
            text.push_str(b"U");
            text.push_last(10, 4, u32::from(number));
        }
    }
}

// Prints the code of a task that abended.
fn print_code<W: Write>(
    writer: &mut Watched<W>,
    line_number: u32,
    task: &Name,
    code: Code,
) -> Result<(), Failed>
    ensures { Prints W.contents writer.old writer.new result
        (reply_line line_number task.now (codes "ABEND " ++ code_text code)) }
{
    let mut text = LineText::new();
    push_head(&mut text, line_number, task);
    text.push_str(b"ABEND ");
    push_code(&mut text, code);
    text.push_str(b"\n");
    write_all(writer, text.as_slice())
}

// Appends that a task ended with another.
fn push_ended_with(text: &mut LineText, other: &Name)
    requires { length text.old ≤ 100 }
    ensures text { text.new ≡ text.old ++ (codes "ENDED WITH " ++ trimmed other.now) }
    ensures len { length text.new ≤ length text.old + 20 }
{
    text.push_str(b"ENDED WITH ");
    text.push_name(other);
}

// Prints that a task ended with another.
fn print_ended_with<W: Write>(
    writer: &mut Watched<W>,
    line_number: u32,
    task: &Name,
    other: &Name,
) -> Result<(), Failed>
    ensures { Prints W.contents writer.old writer.new result
        (reply_line line_number task.now (codes "ENDED WITH " ++ trimmed other.now)) }
{
    let mut text = LineText::new();
    push_head(&mut text, line_number, task);
    push_ended_with(&mut text, other);
    text.push_str(b"\n");
    write_all(writer, text.as_slice())
}

/// Prints an abend, and a line for each task that ended with the one that abended.
pub fn print_abend<W: Write>(
    writer: &mut Watched<W>,
    line_number: u32,
    task: &Name,
    code: Code,
    fallen: &[Name],
) -> Result<(), Failed>
    ensures { Prints W.contents writer.old writer.new result
        (abend_lines line_number task.now code fallen.now) }
{
    print_code(writer, line_number, task, code)?;
    for name in fallen {
        print_ended_with(writer, line_number, name, task)?;
    }
    Ok(())
}

// Appends the text of an answer of one line that is not an abend.
fn push_short_answer(text: &mut LineText, answer: &Answer)
    requires room { length text.old ≤ 100 }
    requires whole { has_long_data answer.now ≡ false }
    ensures text { (st : State) (fallen : List Name) (t : Name)
        → text.new ≡ text.old ++ one_line_text (full_answer st fallen t answer.now) }
    ensures len { length text.new ≤ length text.old + 20 }
{
    match answer {
        Answer::NotRun => text.push_str(b"NOT RUN"),
        Answer::NoName => text.push_str(b"NO NAME"),
        Answer::At(addr) => {
            text.push_str(b"AT ");
            text.push_word(addr.get());
        }
        Answer::Rc0 => text.push_str(b"RC 0"),
        Answer::Granted(len) => {
            text.push_str(b"RC 0 LENGTH ");
            text.push_word(*len);
        }
        Answer::Rc4 => text.push_str(b"RC 4"),
        Answer::Cell => text.push_str(b"CELL"),
        Answer::NoCell => text.push_str(b"NO CELL"),
        Answer::Attached => text.push_str(b"ATTACHED"),
        Answer::Ended => text.push_str(b"ENDED"),
        Answer::Done => text.push_str(b"OK"),
        Answer::Data(_) | Answer::Abended(_) | Answer::Subpools | Answer::Map => unreachable!(),
    }
}

/// Prints an answer of one line.
pub fn print_short_answer<W: Write>(
    writer: &mut Watched<W>,
    line_number: u32,
    task: &Name,
    answer: &Answer,
) -> Result<(), Failed>
    requires { has_long_data answer.now ≡ false }
    ensures { (st : State) (fallen : List Name)
        → Prints W.contents writer.old writer.new result
        (answer_text line_number task.now (full_answer st fallen task.now answer.now)) }
{
    let mut text = LineText::new();
    push_head(&mut text, line_number, task);
    push_short_answer(&mut text, answer);
    text.push_str(b"\n");
    write_all(writer, text.as_slice())
}
