//! The text of the items of a page.

ghost use Rattle.std.specs.Prelude.{◌≡◌, ◌≤◌, ◌<◌, ◌+◌, ◌++◌, ◌∷◌, [], true, IfOk, OnOk, decimal, drop, length, take};
ghost use Rattle.line_text.specs.Writing.{Prints};
ghost use Rattle.mvs_job.specs.LineEvents.{closing};
ghost use Rattle.page.specs.Markup.{article_tag, closing_of, escaped, escaped_byte, head_of, most_of_line, note_of, note_tag, reply_of, shown_line, tail_of, words_of};

use job_script::MOST_LINE_BYTES;
use line_text::text::LineText;
use line_text::write_all;
use mvs_job::{line_end, print_closing};
use mvs_model::watched::{Failed, Watched};
use std::alloc::AllocError;
use std::io::Write;
use std::slice;

/// Appends a tag.
pub fn push_tag(item: &mut Vec<u8>, tag: &[u8]) -> Result<(), AllocError>
    ensures { OnOk result (item.new.items ≡ item.old.items ++ tag.now) }
{
    item.extend_from_slice(tag)
}

// Returns how a byte is written between tags.
fn escaped_byte(byte: &u8) -> &[u8]
    ensures { result.now ≡ escaped_byte byte.now }
{
    match *byte {
        b'&' => b"&amp;",
        b'<' => b"&lt;",
        b'>' => b"&gt;",
        b'"' => b"&quot;",
        b'\n' | b' '..=b'~' => slice::from_ref(byte),
        _ => b"?",
    }
}

// Returns whether a byte is written as it is.
fn is_unchanged(byte: u8) -> bool
    ensures { result ≡ true → escaped_byte byte ≡ byte ∷ [] }
{
    match byte {
        b'&' | b'<' | b'>' | b'"' => false,
        b'\n' | b' '..=b'~' => true,
        _ => false,
    }
}

// Returns how many bytes at the beginning of a text are written as they are.
fn unchanged_len(text: &[u8]) -> usize
    ensures bound { result ≤ length text.now }
    ensures unchanged { escaped (take result text.now) ≡ take result text.now }
{
    let mut len = 0;
    'bytes: while len < text.len() {
        if !is_unchanged(text[len]) {
            return len;
        }
        len += 1;
    }
    len
}

// Appends the first byte of a text, escaped, and returns the others.
fn push_first<'a>(item: &mut Vec<u8>, text: &'a [u8]) -> Result<&'a [u8], AllocError>
    ensures items { IfOk result
        (λ others. item.new.items ++ escaped others.now ≡ item.old.items ++ escaped text.now) }
    ensures shorter { IfOk result
        (λ others. (length others.now ≤ length text.now) × (0 < length text.now → length others.now < length text.now)) }
{
    let Some((first, others)) = text.split_first() else {
        return Ok(text);
    };
    item.extend_from_slice(escaped_byte(first))?;
    Ok(others)
}

// Appends a text, escaped.
fn push_escaped(item: &mut Vec<u8>, text: &[u8]) -> Result<(), AllocError>
    ensures { OnOk result (item.new.items ≡ item.old.items ++ escaped text.now) }
{
    let mut rest = text;
    'runs: while !rest.is_empty() {
        let (unchanged, others) = rest.split_at(unchanged_len(rest));
        item.extend_from_slice(unchanged)?;
        rest = push_first(item, others)?;
    }
    Ok(())
}

// Appends a number.
fn push_number(item: &mut Vec<u8>, number: u32) -> Result<(), AllocError>
    ensures { OnOk result (item.new.items ≡ item.old.items ++ escaped (decimal number)) }
{
    let mut text = LineText::new();
    text.push_decimal(number);
    push_escaped(item, text.as_slice())
}

// Returns the front of a line that is shown.
fn front(line: &[u8]) -> &[u8]
    ensures { result.now ≡ take most_of_line line.now }
{
    if line.len() > MOST_LINE_BYTES {
        &line[..MOST_LINE_BYTES]
    } else {
        line
    }
}

// Returns a line of explanations without its asterisk and the blank after it.
fn without_star(line: &[u8]) -> &[u8]
    ensures { result.now ≡ drop 2 line.now }
{
    if line.len() > 2 { &line[2..] } else { &[] }
}

// Returns the lines after the first one of a text.
fn lines_after(text: &[u8], end: usize) -> &[u8]
    requires { end ≤ length text.now }
    ensures { result.now ≡ drop (end + 1) text.now }
{
    if end < text.len() {
        &text[end + 1..]
    } else {
        &[]
    }
}

// Appends the explanations of an answer, line by line.
fn push_words(item: &mut Vec<u8>, explanation: &[u8]) -> Result<(), AllocError>
    ensures { OnOk result (item.new.items ≡ item.old.items ++ words_of explanation.now) }
{
    if explanation.is_empty() {
        return Ok(());
    }
    let end = line_end(explanation);
    push_escaped(item, without_star(&explanation[..end]))?;
    item.extend_from_slice(b"\n")?;
    push_words(item, lines_after(explanation, end))
}

// Appends the tag that begins the item of a statement.
fn push_article_tag(item: &mut Vec<u8>, number: u32, how: &[u8]) -> Result<(), AllocError>
    ensures { OnOk result (item.new.items ≡ item.old.items ++ article_tag number how.now) }
{
    push_tag(item, b"<article id=\"l")?;
    push_number(item, number)?;
    push_tag(item, b"\" class=\"")?;
    push_tag(item, how)?;
    push_tag(item, b"\">")?;
    Ok(())
}

/// Appends the head of an item of a statement: its number, its result, and its line.
pub fn push_head(item: &mut Vec<u8>, number: u32, how: &[u8], line: &[u8]) -> Result<(), AllocError>
    ensures { OnOk result (item.new.items ≡ item.old.items ++ head_of number how.now line.now) }
{
    push_article_tag(item, number, how)?;
    push_tag(item, b"\n<h2>")?;
    push_number(item, number)?;
    push_tag(item, b" <code>")?;
    push_escaped(item, front(line))?;
    push_tag(item, b"</code></h2>\n")?;
    Ok(())
}

/// Appends what a line prints to an item.
pub fn push_reply(item: &mut Vec<u8>, printed: &[u8]) -> Result<(), AllocError>
    ensures { OnOk result (item.new.items ≡ item.old.items ++ reply_of printed.now) }
{
    push_tag(item, b"<pre>")?;
    push_escaped(item, printed)?;
    push_tag(item, b"</pre>\n")?;
    Ok(())
}

/// Appends the explanations and the lines of change to an item.
pub fn push_tail(item: &mut Vec<u8>, explanation: &[u8], changes: &[u8]) -> Result<(), AllocError>
    ensures { OnOk result (item.new.items ≡ item.old.items ++ tail_of explanation.now changes.now) }
{
    push_tag(item, b"<p>")?;
    push_words(item, explanation)?;
    push_tag(item, b"</p>\n<pre class=\"d\">")?;
    push_escaped(item, changes)?;
    push_tag(item, b"</pre>\n</article>\n")?;
    Ok(())
}

// Writes a text, escaped.
fn print_escaped<W: Write>(writer: &mut Watched<W>, text: &[u8]) -> Result<(), Failed>
    ensures { Prints W.contents writer.old writer.new result (escaped text.now) }
{
    for byte in text {
        write_all(writer, escaped_byte(byte))?;
    }
    Ok(())
}

// Writes a number.
fn print_number<W: Write>(writer: &mut Watched<W>, number: u32) -> Result<(), Failed>
    ensures { Prints W.contents writer.old writer.new result (escaped (decimal number)) }
{
    let mut text = LineText::new();
    text.push_decimal(number);
    print_escaped(writer, text.as_slice())
}

// Writes the tag that begins the item of a line without a statement.
fn print_note_tag<W: Write>(writer: &mut Watched<W>, number: u32) -> Result<(), Failed>
    ensures { Prints W.contents writer.old writer.new result (note_tag number) }
{
    write_all(writer, b"<p id=\"l")?;
    print_number(writer, number)?;
    write_all(writer, b"\">")
}

/// Writes the item of a line without a statement. It allocates no memory.
pub fn print_note<W: Write>(writer: &mut Watched<W>, number: u32, line: &[u8]) -> Result<(), Failed>
    ensures { Prints W.contents writer.old writer.new result (note_of number line.now) }
{
    print_note_tag(writer, number)?;
    print_escaped(writer, front(line))?;
    write_all(writer, b"</p>\n")
}

/// Writes the item at the end of a job that has no more lines. It allocates no memory.
pub fn print_end<W: Write>(
    writer: &mut Watched<W>,
    line_number: u32,
    end: Option<bool>,
) -> Result<(), Failed>
    ensures { Prints W.contents writer.old writer.new result (closing_of (closing line_number end)) }
{
    write_all(writer, b"<pre>")?;
    print_closing(writer, line_number, end)?;
    write_all(writer, b"</pre>\n")
}
