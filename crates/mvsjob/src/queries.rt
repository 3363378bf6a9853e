//! A script with a WHERE for each of its areas and cells.

ghost use Rattle.std.specs.Prelude.{Some, true};
ghost use Rattle.std.specs.List.{flat_map};
ghost use Rattle.line_text.specs.Writing.{Prints};
ghost use Rattle.mvs_model.specs.Lines.{lines_of};
ghost use Rattle.mvsjob.specs.Queries.{with_queries, question, questions, questions_after};

use crate::faulty::is_blank_or_comment;
use job_script::read_line;
use job_script::split_once::split_once;
use line_text::text::LineText;
use line_text::write_all;
use mvs_model::line::{Line, SourceRequest, Statement};
use mvs_model::name::Name;
use mvs_model::watched::{Failed, Watched};
use std::io::Write;

// Writes the WHERE for the area or cell of a name.
fn write_question<W: Write>(writer: &mut Watched<W>, task: &Name, name: &Name) -> Result<(), Failed>
    ensures { Prints W.contents writer.old writer.new result (question task.now name.now) }
{
    let mut text = LineText::new();
    text.push_name(task);
    text.push_str(b" WHERE ");
    text.push_name(name);
    text.push_str(b"\n");
    write_all(writer, text.as_slice())
}

// Writes a question for each name.
fn write_each<W: Write>(writer: &mut Watched<W>, task: &Name, names: &[Name]) -> Result<(), Failed>
    ensures { Prints W.contents writer.old writer.new result
        (flat_map (question task.now) names.now) }
{
    for name in names {
        write_question(writer, task, name)?;
    }
    Ok(())
}

// Writes the questions after what a statement of a task requests.
fn write_after_request<W: Write>(
    writer: &mut Watched<W>,
    task: &Name,
    written: &SourceRequest,
) -> Result<(), Failed>
    ensures { Prints W.contents writer.old writer.new result
        (questions_after task.now written.now) }
{
    match written {
        SourceRequest::Obtain { area, .. } => write_question(writer, task, area),
        SourceRequest::ObtainList { areas, .. } => write_each(writer, task, areas.as_slice()),
        SourceRequest::Get { cell, .. } => write_question(writer, task, cell),
        SourceRequest::Release { .. }
        | SourceRequest::ReleaseArea { .. }
        | SourceRequest::ReleaseList { .. }
        | SourceRequest::ReleaseWhole { .. }
        | SourceRequest::Build { .. }
        | SourceRequest::Free { .. }
        | SourceRequest::Delete { .. }
        | SourceRequest::Attach { .. }
        | SourceRequest::Return
        | SourceRequest::Abend(_)
        | SourceRequest::Show { .. }
        | SourceRequest::Put { .. }
        | SourceRequest::Move { .. } => Ok(()),
    }
}

// Writes the questions after what a line says.
fn write_after<W: Write>(writer: &mut Watched<W>, line: &Line) -> Result<(), Failed>
    ensures { Prints W.contents writer.old writer.new result (questions (Some line.now)) }
{
    match line {
        Line::Statement(task, Statement::Request(written)) => {
            write_after_request(writer, task, written)
        }
        Line::Nothing | Line::Statement(..) => Ok(()),
    }
}

/// Writes a script with a WHERE after each request for areas or a cell, up to the first line with a fault.
pub fn write_with_queries<W: Write>(writer: &mut Watched<W>, script: &[u8]) -> Result<(), Failed>
    ensures { Prints W.contents writer.old writer.new result (with_queries true (lines_of script.now)) }
{
    let mut read = Line::Nothing;
    let mut is_first = true;
    let mut rest = script;
    'lines: while !rest.is_empty() {
        let (line, more) = split_once(rest, b'\n');
        write_all(writer, line)?;
        write_all(writer, b"\n")?;
        let Ok(()) = read_line(line, is_first, &mut read) else {
            return Ok(());
        };
        write_after(writer, &read)?;
        is_first &= is_blank_or_comment(&read);
        rest = more.unwrap_or(&[]);
    }
    Ok(())
}
