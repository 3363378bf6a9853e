//! Lines that are typed, without what keys of the terminal put into them.

ghost use Rattle.std.specs.Prelude.{◌≡◌, ◌≤◌, length};
ghost use Rattle.shell.specs.Cleaning.{cleaned, left_of, place_after};

use job_script::LineBuffer;

/// What comes next in a line that is cleaned.
#[derive(Clone, Copy, Debug, PartialEq, Eq)]
pub enum CleaningState {
    /// A byte of the text.
    Text,
    /// The byte after an escape.
    Escaped,
    /// A byte of the sequence of a key.
    Sequence,
}

// Returns the place after a byte.
fn place_after(place: CleaningState, byte: u8) -> CleaningState
    ensures { result ≡ place_after place byte }
{
    match place {
        CleaningState::Text => {
            if byte == 0x1B {
                CleaningState::Escaped
            } else {
                CleaningState::Text
            }
        }
        CleaningState::Escaped => {
            if byte == b'[' || byte == b'O' {
                CleaningState::Sequence
            } else {
                CleaningState::Text
            }
        }
        CleaningState::Sequence => {
            if b'@' <= byte && byte <= b'~' {
                CleaningState::Text
            } else {
                CleaningState::Sequence
            }
        }
    }
}

// Returns what a byte of a text leaves: a tab is a blank, and any other control byte is nothing.
fn left_of(place: CleaningState, byte: u8) -> Option<u8>
    ensures { result ≡ left_of place byte }
{
    match place {
        CleaningState::Text => {
            if byte == b'\t' {
                Some(b' ')
            } else if byte < b' ' || byte == 0x7F {
                None
            } else {
                Some(byte)
            }
        }
        CleaningState::Escaped | CleaningState::Sequence => None,
    }
}

/// Removes the sequences of keys and the control bytes from a line; a tab becomes a blank. What is left is written over `left`.
/// Returns whether there was the sequence of a key.
pub fn clean(line: &[u8], left: &mut LineBuffer) -> bool
    requires { length line.now ≤ 256 }
    ensures { left.new ≡ cleaned CleaningState.Text line.now }
{
    left.clear();
    let mut place = CleaningState::Text;
    let mut has_sequence = false;
    for byte in line {
        if let Some(other) = left_of(place, *byte) {
            let _ = left.push(other);
        }
        place = place_after(place, *byte);
        has_sequence |= place == CleaningState::Escaped;
    }
    has_sequence
}
