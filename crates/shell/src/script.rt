//! The lines of a job.

ghost use Rattle.std.specs.Prelude.{◌≡◌, ◌+◌, ◌-◌, ◌≤◌, ◌==◌, ◌++◌, ◌∷◌, ◌↔◌, [], true, IfOk, OnOk, OnErr, take, length};
ghost use Rattle.std.specs.List.{AllByRecursion, list_all};
ghost use Rattle.mvs_model.specs.Lines.{IsUnended, ended_text};
ghost use Rattle.mvs_model.specs.Numbers.{most_script_bytes};
ghost use Rattle.mvs_model.specs.Reading.{is_blank_or_comment};
ghost use Rattle.shell.specs.Scripts.{HasRoom, are_blank};

use job_script::LineBuffer;
use mvs_model::error::OutOfMemory;
use mvs_model::numbers::MOST_SCRIPT_BYTES;
use std::alloc::{AllocError, Global};
use std::marker::Model;

/// The lines of a job, each without its end. With their ends they have no more bytes than a script may have.
#[derive(Drop)]
pub struct SessionScript {
    lines: Vec<LineBuffer>,
    /// How many bytes the lines have, with their ends.
    bytes: usize,
}

impl Model for SessionScript {
    ghost use Rattle.std.specs.Prelude.{List, ℕ};
    ghost use Rattle.shell.specs.Scripts.{IsScript};

    ghost Value = { List (List ℕ) };

    ghost view = { λ s. s.lines.items };

    ghost invariant = { λ s. IsScript s.lines.items s.bytes };
}

// Copies a line.
fn copied(line: &[u8]) -> LineBuffer
    requires short { length line.now ≤ 256 }
    requires unended { IsUnended line.now }
    ensures { result ≡ line.now }
{
    let mut copy = LineBuffer::new();
    for byte in line {
        let _ = copy.push(*byte);
    }
    copy
}

// Returns whether a line has only blanks.
fn is_blank(line: &[u8]) -> bool
    ensures { result ≡ list_all (λ b. b == 32) line.now }
{
    line.iter().all(|byte| *byte == b' ')
}

// Returns whether a line is blank or a comment.
fn is_blank_or_comment(line: &[u8]) -> bool
    ensures { result ≡ is_blank_or_comment line.now }
{
    match line {
        [] => true,
        [first, ..] => *first == b'*' || is_blank(line),
    }
}

// Returns how many bytes some lines have, with their ends.
fn count_bytes(lines: &[LineBuffer]) -> usize
    requires { length (ended_text lines.now) ≤ most_script_bytes }
    ensures { result ≡ length (ended_text lines.now) }
{
    let mut bytes = 0;
    for line in lines {
        bytes += line.bytes().len() + 1;
    }
    bytes
}

impl SessionScript {
    /// Makes a script without lines. It allocates no memory.
    pub fn new(alloc: Global) -> SessionScript
        ensures { result ≡ [] }
    {
        SessionScript {
            lines: Vec::new(alloc),
            bytes: 0,
        }
    }

    /// Returns the lines.
    pub fn lines(&self) -> &[LineBuffer]
        ensures lines { result.now ≡ self.now }
        ensures each { AllByRecursion IsUnended self.now }
        ensures few { length self.now ≤ most_script_bytes }
    {
        self.lines.as_slice()
    }

    /// Returns the number of lines.
    pub fn count(&self) -> usize
        ensures count { result ≡ length self.now }
        ensures few { length self.now ≤ most_script_bytes }
    {
        self.lines.len()
    }

    /// Returns whether there is no statement among the lines.
    pub fn is_blank(&self) -> bool
        ensures { result ≡ are_blank self.now }
    {
        self.lines
            .iter()
            .all(|line| is_blank_or_comment(line.bytes()))
    }

    /// Returns whether the lines and another one are not too long for a script.
    pub fn has_room(&self, line: &[u8]) -> bool
        requires { length line.now ≤ 256 }
        ensures room { result ≡ true ↔ HasRoom self.now line.now }
        ensures few { length self.now ≤ most_script_bytes }
    {
        self.bytes + line.len() < MOST_SCRIPT_BYTES
    }

    /// Appends a line.
    pub fn push(&mut self, line: &[u8]) -> Result<(), OutOfMemory>
        requires room { HasRoom self.old line.now }
        requires short { length line.now ≤ 256 }
        requires unended { IsUnended line.now }
        ensures ok { OnOk result (self.new ≡ self.old ++ line.now ∷ []) }
        ensures err { OnErr result (self.new ≡ self.old) }
    {
        self.lines.push(copied(line)).map_err(|_| OutOfMemory)?;
        self.bytes += line.len() + 1;
        Ok(())
    }

    /// Removes the last lines; all, if there are fewer.
    pub fn undo(&mut self, count: usize)
        ensures { self.new ≡ take (length self.old - count) self.old }
    {
        let left = self.lines.len().saturating_sub(count);
        self.lines.truncate(left);
        self.bytes = count_bytes(&self.lines);
    }

    /// Removes all lines.
    pub fn clear(&mut self)
        ensures { self.new ≡ [] }
    {
        self.lines.clear();
        self.bytes = 0;
    }

    /// Returns the text, in which each line has its end.
    pub fn text(&self, alloc: Global) -> Result<Vec<u8>, AllocError>
        ensures { IfOk result (λ text. text.items ≡ ended_text self.now) }
    {
        let mut text = Vec::new(alloc);
        for line in &self.lines {
            text.extend_from_slice(line.bytes())?;
            text.push(b'\n')?;
        }
        Ok(text)
    }
}
