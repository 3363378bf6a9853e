//! A line of a script as it comes, byte by byte.

ghost use Rattle.std.specs.Prelude.{◌≡◌, ◌<◌, [], List, ℕ, length};
ghost use Rattle.job_script.specs.LineBuffers.{Pushes};

use std::marker::Model;

/// The bytes that are kept at most: one more than a line may have. This project's choice.
const ROOM: usize = 256;

/// What a byte made of a line.
#[derive(Clone, Copy, Debug, PartialEq, Eq)]
pub enum Pushed {
    /// It is X'0A', which ends the line and is not kept.
    Line,
    /// It is kept, and is the 256th: the line is too long.
    Full,
    /// It is kept, and there is room for more.
    More,
}

/// The bytes that were pushed to a line, up to 256. It allocates no memory.
#[derive(Drop)]
pub struct LineBuffer {
    bytes: [u8; ROOM],
    len: usize,
}

impl Model for LineBuffer {
    ghost use Rattle.std.specs.Prelude.{List, ℕ, ◌≤◌, take};

    ghost Value = { List ℕ };

    ghost view = { λ b. take b.len b.bytes };

    ghost invariant = { λ b. b.len ≤ 256 };
}

impl LineBuffer {
    /// Makes an empty buffer.
    pub fn new() -> LineBuffer
        ensures { result ≡ [] }
    {
        LineBuffer {
            bytes: [0; ROOM],
            len: 0,
        }
    }

    /// Takes a byte, where fewer than 256 are kept.
    pub fn push(&mut self, byte: u8) -> Pushed
        requires { length self.old < 256 }
        ensures { Pushes self.old byte result self.new }
    {
        if byte == b'\n' {
            return Pushed::Line;
        }
        self.bytes[self.len] = byte;
        self.len += 1;
        if self.len == ROOM {
            Pushed::Full
        } else {
            Pushed::More
        }
    }

    /// Returns what was kept since the last `clear`.
    pub fn bytes(&self) -> &[u8]
        ensures { result.now ≡ self.now }
    {
        &self.bytes[..self.len]
    }

    /// Removes all bytes.
    pub fn clear(&mut self)
        ensures { self.new ≡ [] }
    {
        self.len = 0;
    }
}
