//! Writes the script of a source, or the same as JSON.

use crate::json::Json;
use crate::region::{LARGEST, RegionPages};
use assembler_script::{FoundLine, Requests, Saying};
use job_script::read_line;
use mvs_model::line::Line;
use std::alloc::{AllocError, Global};
use std::io::{ErrorKind, Write};
use thiserror::Error;

/// The most characters of a line of a script.
const LONGEST: usize = 255;

/// How many statements a script has, and how many lines need attention.
#[derive(Clone, Copy)]
pub struct Sum {
    pub statements: u32,
    pub open: u32,
}

/// What the script begins with, and how it is written.
#[derive(Clone, Copy)]
pub struct ScriptForm<'a> {
    pub region: Option<RegionPages>,
    /// The region as it was written.
    pub written: &'a str,
    pub is_json: bool,
}

/// Why a script was not written to its end.
#[derive(Clone, Copy, Debug, PartialEq, Eq, Error)]
pub enum ScriptStop {
    #[error("out of memory")]
    Memory,
    #[error("write failed")]
    Write,
    /// Nobody reads what is written.
    #[error("the pipe is closed")]
    Pipe,
}

impl From<ErrorKind> for ScriptStop {
    fn from(kind: ErrorKind) -> ScriptStop {
        match kind {
            ErrorKind::OutOfMemory => ScriptStop::Memory,
            ErrorKind::BrokenPipe => ScriptStop::Pipe,
            _ => ScriptStop::Write,
        }
    }
}

impl From<AllocError> for ScriptStop {
    fn from(_: AllocError) -> ScriptStop {
        ScriptStop::Memory
    }
}

// Returns whether a line of a script says a statement.
fn is_statement(line: &str) -> bool {
    let mut read = Line::Nothing;
    match read_line(line.as_bytes(), false, &mut read) {
        Ok(()) => matches!(read, Line::Statement(..)),
        Err(_) => false,
    }
}

// Returns the front of a line that a script may have.
fn cut(alloc: Global, line: &str) -> Result<String, AllocError> {
    line.chars().take(LONGEST).collect(alloc)
}

// Returns the line of the source in which something is found.
fn source_line(alloc: Global, found: &FoundLine) -> Result<String, AllocError> {
    let number = found.number;
    if found.member.is_empty() {
        return format!(in alloc; "{number}");
    }
    let member = found.member.as_str();
    format!(in alloc; "{member}:{number}")
}

// Returns the text that says in which loop a request is.
fn within(alloc: Global, found: &FoundLine) -> Result<String, AllocError> {
    match &found.in_loop {
        Some(label) => format!(in alloc; " in loop {label}"),
        None => Ok(String::new(alloc)),
    }
}

// Returns the line of a statement of a script, with the source as a remark.
fn statement_line(
    alloc: Global,
    found: &FoundLine,
    task: &str,
    text: &str,
) -> Result<String, AllocError> {
    let place = source_line(alloc, found)?;
    let within = within(alloc, found)?;
    let source = found.source.as_str();
    cut(
        alloc,
        &format!(in alloc; "{task} {text}    {place}{within}: {source}")?,
    )
}

// Returns the comment on something that needs attention.
fn comment(alloc: Global, found: &FoundLine, why: &str) -> Result<String, AllocError> {
    let line = source_line(alloc, found)?;
    let source = found.source.as_str();
    cut(alloc, &format!(in alloc; "*? {line}: {why}: {source}")?)
}

// What becomes of something that is found: a statement of a task, with its line in the script, or why it needs attention.
#[derive(Drop)]
enum WrittenLine<'a> {
    Statement {
        task: &'a str,
        text: &'a str,
        line: String,
    },
    Open(String),
}

// Returns what becomes of the statement of a task: a line that the script does not take needs attention.
fn statement_of<'a>(
    alloc: Global,
    found: &FoundLine,
    task: &'a str,
    text: &'a str,
) -> Result<WrittenLine<'a>, AllocError> {
    let line = statement_line(alloc, found, task, text)?;
    if is_statement(&line) {
        return Ok(WrittenLine::Statement { task, text, line });
    }
    let why = format!(in alloc; "the script does not take {text}")?;
    Ok(WrittenLine::Open(why))
}

// Returns what becomes of something that is found.
fn line_of(alloc: Global, found: &FoundLine) -> Result<WrittenLine<'_>, AllocError> {
    match &found.saying {
        Saying::Statement { task, text } => statement_of(alloc, found, task, text),
        Saying::Open(reason) => {
            let why = format!(in alloc; "{reason}")?;
            Ok(WrittenLine::Open(why))
        }
    }
}

// Returns a line that was found, as JSON.
fn json_of(
    alloc: Global,
    found: &FoundLine,
    written: &WrittenLine<'_>,
) -> Result<String, AllocError> {
    let mut json = Json::new(alloc);
    json.put("line", &source_line(alloc, found)?)?;
    json.put("source", &found.source)?;
    if let Some(label) = &found.in_loop {
        json.put("loop", label)?;
    }
    match written {
        WrittenLine::Statement { task, text, .. } => {
            json.put("task", task)?;
            json.put("statement", text)?;
        }
        WrittenLine::Open(why) => json.put("attention", why)?,
    }
    json.end()
}

// Returns a line that was found, as a line of the script.
fn script_line(
    alloc: Global,
    found: &FoundLine,
    written: WrittenLine<'_>,
) -> Result<String, AllocError> {
    match written {
        WrittenLine::Statement { line, .. } => Ok(line),
        WrittenLine::Open(why) => comment(alloc, found, &why),
    }
}

// Writes a line.
fn put<W: Write>(writer: &mut W, line: &str) -> Result<(), ScriptStop> {
    writeln!(writer, "{line}").map_err(|error| ScriptStop::from(error.kind()))
}

// Returns the comment on the region: what was written, or that the largest one is assumed.
fn region_comment(alloc: Global, form: ScriptForm<'_>) -> Result<String, AllocError> {
    let RegionPages { below, above } = form.region.unwrap_or(LARGEST);
    let written = form.written;
    if form.region.is_none() {
        return format!(in alloc;
            "* No --region: the largest is assumed, {below} pages below 16 megabytes and {above} above, so no request fails for lack of storage."
        );
    }
    format!(in alloc; "* REGION={written}: {below} pages below 16 megabytes, {above} above.")
}

// Writes the region, as a comment and a statement or as JSON.
fn put_region<W: Write>(
    alloc: Global,
    writer: &mut W,
    requests: &Requests,
    form: ScriptForm<'_>,
) -> Result<(), ScriptStop> {
    let RegionPages { below, above } = form.region.unwrap_or(LARGEST);
    let residence = if requests.is_above { ",RES=ABOVE" } else { "" };
    let text = format!(in alloc; "REGION BELOW={below},ABOVE={above}{residence}")?;
    let task = requests.task.as_str();
    if form.is_json {
        let mut json = Json::new(alloc);
        json.put("task", task)?;
        json.put("statement", &text)?;
        return put(writer, &json.end()?);
    }
    put(writer, &region_comment(alloc, form)?)?;
    put(writer, &format!(in alloc; "{task} {text}")?)
}

// Writes something that is found, and returns whether it is a statement.
fn put_found<W: Write>(
    alloc: Global,
    writer: &mut W,
    found: &FoundLine,
    is_json: bool,
) -> Result<bool, ScriptStop> {
    let written = line_of(alloc, found)?;
    let is_open = matches!(written, WrittenLine::Open(_));
    let line = if is_json {
        json_of(alloc, found, &written)?
    } else {
        script_line(alloc, found, written)?
    };
    put(writer, &line)?;
    Ok(!is_open)
}

/// Writes the script of some requests: a line for each. Lines that begin with `*?` need attention. As JSON, each request is an object,
/// and the last object has their number.
pub fn write_script<W: Write>(
    alloc: Global,
    writer: &mut W,
    requests: &Requests,
    form: ScriptForm<'_>,
) -> Result<Sum, ScriptStop> {
    put_region(alloc, writer, requests, form)?;
    let mut sum = Sum {
        statements: 0,
        open: 0,
    };
    for found in requests.found.iter() {
        if put_found(alloc, writer, found, form.is_json)? {
            sum.statements = sum.statements.saturating_add(1);
        } else {
            sum.open = sum.open.saturating_add(1);
        }
    }
    if form.is_json {
        let Sum { statements, open } = sum;
        put(
            writer,
            &format!(in alloc; "{{\"statements\":{statements},\"attention\":{open}}}")?,
        )?;
    }
    Ok(sum)
}
