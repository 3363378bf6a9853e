//! The front of a script that can be passed on as text.

ghost use Rattle.std.specs.Prelude.{◌≡◌, None, position};
ghost use Rattle.mvsjob.specs.ModeResult.{HasNoForeign, is_foreign};

use crate::faulty::FaultyLine;
use crate::recorder::{ended, ended_lines};
use job_script::read_line;
use job_script::split_once::split_once;
use mvs_model::line::{Fault, Line};

/// A script up to the first line with a byte that no line may have, and that line, if there is one.
#[derive(Clone, Copy)]
pub struct Front<'a> {
    pub bytes: &'a [u8],
    pub faulty: Option<FaultyLine<'a>>,
}

impl<'a> Front<'a> {
    /// Returns the bytes as text, which they are.
    pub fn text(&self) -> &'a str {
        str::from_utf8(self.bytes).unwrap_or("")
    }
}

// Returns where the first byte is that no script may have.
fn foreign_byte(script: &[u8]) -> Option<usize>
    ensures { result ≡ position is_foreign script.now }
{
    script
        .iter()
        .position(|byte| *byte != b'\n' && (*byte < b' ' || *byte > b'~'))
}

/// Returns the front of a script that is text as a run reads it.
pub fn front_of(script: &[u8]) -> Front<'_>
    ensures bytes { HasNoForeign script.now → result.bytes.now ≡ script.now }
    ensures faulty { HasNoForeign script.now → result.faulty ≡ None }
{
    let Some(at) = foreign_byte(script) else {
        return Front {
            bytes: script,
            faulty: None,
        };
    };
    let front = &script[..at.min(script.len())];
    let begin = ended(front);
    let (line, _) = split_once(&script[begin..], b'\n');
    let mut read = Line::Nothing;
    Front {
        bytes: &script[..begin],
        faulty: Some(FaultyLine {
            number: ended_lines(front).saturating_add(1),
            line,
            fault: read_line(line, false, &mut read)
                .err()
                .unwrap_or(Fault::InvalidByte),
        }),
    }
}
