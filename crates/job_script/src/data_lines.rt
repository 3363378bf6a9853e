//! The lines of bytes.

ghost use Rattle.std.specs.Prelude.{◌≡◌, ◌≤◌, ◌+◌, ◌*◌, ◌/◌, ◌++◌, length, codes};
ghost use Rattle.mvs_model.specs.Numbers.{line_bytes, most_shown};
ghost use Rattle.mvs_model.specs.Texts.{data_lines, hex, line_count};
ghost use Rattle.line_text.specs.Writing.{Prints, data_text};

use line_text::text::LineText;
use line_text::{push_head, write_all};
use mvs_model::name::Name;
use mvs_model::numbers::LINE_BYTES;
use mvs_model::watched::{Failed, Watched};
use std::io::Write;

// Prints a line of bytes after its number and its task, which remain in the text: the offset of the first one, and two digits for
// each.
fn print_data_line<W: Write>(
    writer: &mut Watched<W>,
    text: &mut LineText,
    offset: u16,
    bytes: &[u8],
) -> Result<(), Failed>
    requires head { length text.old ≤ 20 }
    requires bytes { length bytes.now ≤ line_bytes }
    ensures printed { Prints W.contents writer.old writer.new result
        (text.old ++ data_text offset bytes.now ++ codes "\n") }
    ensures kept { text.new ≡ text.old }
{
    let head = text.len();
    text.push_str(b"DATA +");
    text.push_halfword(offset);
    text.push_str(b" ");
    text.push_bytes(bytes);
    text.push_str(b"\n");
    let written = write_all(writer, text.as_slice());
    text.cut(head);
    written
}

/// Prints bytes, in lines of 32.
pub fn print_data<W: Write>(
    writer: &mut Watched<W>,
    line_number: u32,
    task: &Name,
    bytes: &[u8],
) -> Result<(), Failed>
    requires { length bytes.now ≤ most_shown }
    ensures { Prints W.contents writer.old writer.new result
        (data_lines line_number task.now (line_count (length bytes.now)) 0 bytes.now) }
{
    let mut text = LineText::new();
    push_head(&mut text, line_number, task);
    let mut offset = 0;
    let mut rest = bytes;
    'lines: while !rest.is_empty() {
        let (line, more) = rest.split_at(rest.len().min(LINE_BYTES));
        print_data_line(writer, &mut text, offset, line)?;
        offset += LINE_BYTES as u16;
        rest = more;
    }
    Ok(())
}
