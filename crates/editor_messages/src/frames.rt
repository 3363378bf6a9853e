//! Frames of messages: a header with the length of the content, and the content.

ghost use Rattle.std.specs.Prelude.{◌≡◌, ◌≤◌, IfSome, drop, length};
ghost use Rattle.mvs_model.specs.Lines.{lines_of};
ghost use Rattle.editor_messages.specs.Frames.{IsShort, IsWithin, content_of, frame_of, header_len, length_in, length_of};

use job_script::digits::read_number;
use job_script::split_once::{next_word, split_once};
use memchr::memmem;

/// The most bytes of a header.
const MOST_HEADER: usize = 4_096;

/// The most bytes of the content of a message.
pub const MOST_CONTENT: u64 = 33_554_432;

/// What ends a header.
const HEADER_END: &[u8] = b"\r\n\r\n";

/// The most digits of a length.
const MOST_DIGITS: usize = 10;

/// What some bytes that have arrived begin with.
#[derive(Clone, Copy, Debug, PartialEq, Eq)]
pub enum Frame {
    /// A frame that needs more bytes.
    Incomplete,
    /// A frame whose content is the bytes from the first place to the second.
    Content(usize, usize),
    /// This number of bytes that are no header, or a header without a length.
    NoLength(usize),
    /// A header of this number of bytes, and a length that is too long.
    TooLong(usize, u64),
}

// Returns the number of bytes of the header with which a text begins, and its empty line, if the header ends.
fn header_len(bytes: &[u8]) -> Option<usize>
    ensures exact { result ≡ header_len bytes.now }
    ensures within { IfSome result (λ n. n ≤ length bytes.now) }
{
    let at = memmem::find(bytes, HEADER_END)?;
    Some(at + HEADER_END.len())
}

// Returns the length that a line of a header gives, if it is the field of the length.
fn length_in(line: &[u8]) -> Option<u64>
    ensures { result ≡ length_in line.now }
{
    let (line, _) = split_once(line, b'\r');
    let (name, value) = split_once(line, b':');
    if !name.eq_ignore_ascii_case(b"content-length") {
        return None;
    }
    let (digits, _) = next_word(value.unwrap_or(&[]));
    if digits.len() > MOST_DIGITS {
        return None;
    }
    read_number(digits)
}

// Returns the length that a header gives.
fn length_of(header: &[u8]) -> Option<u64>
    ensures { result ≡ length_of (lines_of header.now) }
{
    let mut rest = header;
    'lines: while !rest.is_empty() {
        let (line, more) = split_once(rest, b'\n');
        match length_in(line) {
            Some(length) => return Some(length),
            None => rest = more.unwrap_or(&[]),
        }
    }
    None
}

// Returns the frame with a header of a number of bytes, and a content of this size.
fn content(bytes: &[u8], header: usize, size: u64) -> Frame
    requires { header ≤ length bytes.now }
    ensures exact { result ≡ content_of bytes.now header size }
    ensures within { IsWithin result (length bytes.now) }
    ensures short { header ≤ 4096 → IsShort result (length bytes.now) }
{
    if size > MOST_CONTENT {
        return Frame::TooLong(header, size);
    }
    let size = size as usize;
    if bytes.len() - header < size {
        return Frame::Incomplete;
    }
    Frame::Content(header, header + size)
}

/// Returns what some bytes that have arrived begin with.
pub fn read_frame(bytes: &[u8]) -> Frame
    ensures exact { result ≡ frame_of bytes.now }
    ensures within { IsWithin result (length bytes.now) }
    ensures short { IsShort result (length bytes.now) }
{
    let Some(header) = header_len(bytes) else {
        return if bytes.len() < MOST_HEADER {
            Frame::Incomplete
        } else {
            Frame::NoLength(bytes.len() - 3)
        };
    };
    if header > MOST_HEADER {
        return Frame::NoLength(header);
    }
    match length_of(&bytes[..header]) {
        Some(length) => content(bytes, header, length),
        None => Frame::NoLength(header),
    }
}

/// Returns the bytes after a place.
pub fn after(bytes: &[u8], place: usize) -> &[u8]
    requires { place ≤ length bytes.now }
    ensures { result.now ≡ drop place bytes.now }
{
    &bytes[place..]
}
