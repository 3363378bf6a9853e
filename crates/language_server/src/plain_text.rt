//! Bytes of a script as text, with a point for each that no script may have.

ghost use Rattle.std.specs.Prelude.{◌≡◌, ◌<◌, ◌++◌, ◌∷◌, [], IfOk, OnOk, codes, string_bytes};
ghost use Rattle.expected_answers.specs.Reports.{shown, shown_byte};
ghost use Rattle.language_server.specs.Actions.{written_text};

use std::alloc::{AllocError, Global};

// Returns a byte as it is shown.
fn shown_byte(byte: u8) -> u8
    ensures byte { result ≡ shown_byte byte }
    ensures small { result < 128 }
{
    if b' ' <= byte && byte <= b'~' {
        byte
    } else {
        b'.'
    }
}

// Appends a byte to a text.
fn push_byte(text: &mut String, byte: u8) -> Result<(), AllocError>
    requires { byte < 128 }
    ensures { OnOk result (string_bytes text.new ≡ string_bytes text.old ++ byte ∷ []) }
{
    text.push(char::from(byte))
}

/// Appends bytes to a text.
pub fn push_shown(text: &mut String, bytes: &[u8]) -> Result<(), AllocError>
    ensures { OnOk result (string_bytes text.new ≡ string_bytes text.old ++ shown bytes.now) }
{
    for byte in bytes {
        push_byte(text, shown_byte(*byte))?;
    }
    Ok(())
}

/// Returns bytes as a text.
pub fn shown_text(alloc: Global, bytes: &[u8]) -> Result<String, AllocError>
    ensures { IfOk result (λ text. string_bytes text ≡ shown bytes.now) }
{
    let mut text = String::new(alloc);
    push_shown(&mut text, bytes)?;
    Ok(text)
}

/// Returns an arrow and an answer.
pub fn written_text(alloc: Global, answer: &[u8]) -> Result<String, AllocError>
    ensures { IfOk result (λ text. string_bytes text ≡ written_text answer.now) }
{
    let mut text = String::from_str(alloc, " => ")?;
    push_shown(&mut text, answer)?;
    Ok(text)
}

/// Returns the title of the action that writes an answer.
pub fn writing_title(alloc: Global, answer: &[u8]) -> Result<String, AllocError>
    ensures { IfOk result (λ title. string_bytes title ≡ codes "Write" ++ written_text answer.now) }
{
    let mut title = String::from_str(alloc, "Write => ")?;
    push_shown(&mut title, answer)?;
    Ok(title)
}
