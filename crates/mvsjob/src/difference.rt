//! Where an output differs from what a run prints.

ghost use Rattle.std.specs.Prelude.{◌<◌, length};

use diagnosis::Plain;
use std::io::{self, Write};

/// How a line of an output differs from a line of a run.
#[derive(Clone, Copy, PartialEq, Eq)]
enum Difference {
    /// It is the same, but for X'0D' before its end.
    CarriageReturn,
    /// It is the same, but has no end.
    Unended,
    /// It is another line, or one of the two has no such line.
    Other,
}

/// A line with its end, if it has one.
type LineAndEnd<'a> = Option<&'a [u8]>;

// Returns the first line of a text with its end, and what is after it.
fn first_line(text: &[u8]) -> (LineAndEnd<'_>, &[u8])
    ensures { 0 < length text.now → length result.1.now < length text.now }
{
    if text.is_empty() {
        return (None, text);
    }
    match text.iter().position(|byte| *byte == b'\n') {
        Some(at) if at < text.len() => (Some(&text[..at + 1]), &text[at + 1..]),
        _ => (Some(text), &[]),
    }
}

// Returns how a line of an output differs from a line of a run.
fn difference_of(printed: LineAndEnd<'_>, expected: LineAndEnd<'_>) -> Difference {
    let (Some(printed), Some(expected)) = (printed, expected) else {
        return Difference::Other;
    };
    let Some(text) = expected.strip_suffix(b"\n".as_slice()) else {
        return Difference::Other;
    };
    if printed == text {
        return Difference::Unended;
    }
    match printed.strip_suffix(b"\r\n".as_slice()) {
        Some(line) if line == text => Difference::CarriageReturn,
        _ => Difference::Other,
    }
}

// Writes a line without its end, or that there is none.
fn write_line<W: Write>(writer: &mut W, line: LineAndEnd<'_>) -> io::Result<()> {
    match line {
        Some(line) => {
            let text = line.strip_suffix(b"\n".as_slice()).unwrap_or(line);
            writeln!(writer, "{}", Plain(text))
        }
        None => writeln!(writer, "(no line)"),
    }
}

// Writes how a line of an output differs.
fn write_line_difference<W: Write>(
    writer: &mut W,
    number: u32,
    printed: LineAndEnd<'_>,
    expected: LineAndEnd<'_>,
) -> io::Result<()> {
    match difference_of(printed, expected) {
        Difference::CarriageReturn => writeln!(
            writer,
            "line {number} of the output ends with X'0D0A', not with X'0A' as a run prints it"
        ),
        Difference::Unended => writeln!(
            writer,
            "line {number} of the output, the last line, does not end with X'0A'"
        ),
        Difference::Other => {
            write!(writer, "line {number} of the output: ")?;
            write_line(writer, printed)?;
            write!(writer, "a run prints: ")?;
            write_line(writer, expected)
        }
    }
}

/// Writes the first line of an output that differs from what a run prints, and what the run prints there. A byte that is not
/// printable is shown as a point.
pub fn write_difference<W: Write>(writer: &mut W, output: &[u8], text: &[u8]) -> io::Result<()> {
    let mut number = 1u32;
    let mut left = output;
    let mut wanted = text;
    'lines: while !left.is_empty() {
        let (printed, rest) = first_line(left);
        let (expected, more) = first_line(wanted);
        if printed != expected {
            return write_line_difference(writer, number, printed, expected);
        }
        number = number.saturating_add(1);
        left = rest;
        wanted = more;
    }
    let (expected, _) = first_line(wanted);
    write_line_difference(writer, number, None, expected)
}
