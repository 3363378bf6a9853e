//! Bytes of a script and of the name of its file, as a report shows them.

ghost use Rattle.std.specs.Prelude.{◌≡◌, ◌++◌, ◌≤◌, IfOk, OnOk, length, true};
ghost use Rattle.expected_answers.specs.Reports.{escaped, escaped_byte, is_wide, shown, shown_byte, shown_name, shown_name_byte};

use std::alloc::{AllocError, Global};
use std::slice;

// Returns a byte of a script as it is shown.
fn shown_byte(byte: u8) -> u8
    ensures { result ≡ shown_byte byte }
{
    if b' ' <= byte && byte <= b'~' {
        byte
    } else {
        b'.'
    }
}

/// Appends bytes of a script, with a point for each that no script may have.
pub fn push_shown(report: &mut Vec<u8>, text: &[u8]) -> Result<(), AllocError>
    ensures { OnOk result (report.new.items ≡ report.old.items ++ shown text.now) }
{
    for byte in text {
        report.push(shown_byte(*byte))?;
    }
    Ok(())
}

// Returns how a byte is written in XML.
fn escaped_byte(byte: &u8) -> &[u8]
    ensures { result.now ≡ escaped_byte byte.now }
{
    match *byte {
        b'&' => b"&amp;",
        b'<' => b"&lt;",
        b'>' => b"&gt;",
        b'"' => b"&quot;",
        _ => slice::from_ref(byte),
    }
}

/// Appends a text as it is written in XML.
pub fn push_escaped(report: &mut Vec<u8>, text: &[u8]) -> Result<(), AllocError>
    ensures { OnOk result (report.new.items ≡ report.old.items ++ escaped text.now) }
{
    for byte in text {
        report.extend_from_slice(escaped_byte(byte))?;
    }
    Ok(())
}

// Returns whether a text begins with a control character of two bytes in UTF-8.
fn is_wide(text: &[u8]) -> bool
    ensures value { result ≡ is_wide text.now }
    ensures two { result ≡ true → 2 ≤ length text.now }
{
    match text {
        [first, second, ..] => *first == 0xC2 && *second >= 0x80 && *second < 0xA0,
        _ => false,
    }
}

// Returns a byte of the name of a file as it is shown.
fn shown_name_byte(byte: u8) -> u8
    ensures { result ≡ shown_name_byte byte }
{
    if byte < b' ' || byte == 0x7F {
        b'.'
    } else {
        byte
    }
}

/// Returns the name of a file as it is shown, with a point for each control character.
pub fn shown_name(alloc: Global, name: &[u8]) -> Result<Vec<u8>, AllocError>
    ensures { IfOk result (λ shown. shown.items ≡ shown_name name.now) }
{
    let mut shown = Vec::new(alloc);
    let mut at = 0;
    'bytes: while at < name.len() {
        if is_wide(&name[at..]) {
            shown.push(b'.')?;
            at += 2;
        } else {
            shown.push(shown_name_byte(name[at]))?;
            at += 1;
        }
    }
    Ok(shown)
}
