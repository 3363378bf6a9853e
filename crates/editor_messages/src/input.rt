//! The bytes that have arrived.

ghost use Rattle.std.specs.Prelude.{◌≡◌, ◌≤◌, [], IfOk, OnOk, drop, length};
ghost use Rattle.editor_messages.specs.Inputs.{after_frame, with_more, without};

use crate::frames::Frame;
use std::alloc::{AllocError, Global};
use std::marker::Model;
use std::mem;

/// The most bytes that are read at once.
pub const CHUNK: usize = 65_536;

/// Bytes that have arrived and were not read yet: at most 33,624,064, as many as a header, a message and a chunk have.
#[derive(Drop)]
pub struct Input {
    alloc: Global,
    bytes: Vec<u8>,
    /// How many of them were read.
    read: usize,
    /// How many bytes that arrive next are left out.
    skipped: u64,
}

impl Model for Input {
    ghost use Rattle.std.specs.Prelude.{◌≤◌, drop, length};
    ghost use Rattle.editor_messages.specs.Inputs.{InputValue};

    ghost Value = { InputValue };

    ghost view = { λ i. record { rest = drop i.read i.bytes.items; skipped = i.skipped } };

    ghost invariant = { λ i. (i.read ≤ length i.bytes.items) × (length i.bytes.items ≤ 33624064) };
}

// Returns the bytes that were not read, and gives back the room of the others.
fn unread(alloc: Global, bytes: Vec<u8>, read: usize) -> Result<Vec<u8>, AllocError>
    requires { read ≤ length bytes.items }
    ensures { IfOk result (λ rest. rest.items ≡ drop read bytes.items) }
{
    if read == 0 {
        Ok(bytes)
    } else {
        Vec::from_slice(alloc, &bytes[read..])
    }
}

impl Input {
    /// Makes one without bytes.
    pub fn new(alloc: Global) -> Input
        ensures rest { result.rest ≡ [] }
        ensures skipped { result.skipped ≡ 0 }
    {
        Input {
            alloc,
            bytes: Vec::new(alloc),
            read: 0,
            skipped: 0,
        }
    }

    /// Returns the bytes that have arrived and were not read.
    pub fn rest(&self) -> &[u8]
        ensures { result.now ≡ self.now.rest }
    {
        &self.bytes[self.read..]
    }

    /// Adds bytes that have arrived. If that fails, no bytes are left.
    pub fn add(&mut self, arrived: &[u8]) -> Result<(), AllocError>
        requires rest { length self.old.rest ≤ 33558528 }
        requires chunk { length arrived.now ≤ 65536 }
        ensures { OnOk result (self.new ≡ with_more self.old arrived.now) }
    {
        let read = self.read;
        self.read = 0;
        let bytes = mem::replace(&mut self.bytes, Vec::new(self.alloc));
        let mut bytes = unread(self.alloc, bytes, read)?;
        let left = self.skipped.min(arrived.len() as u64) as usize;
        bytes.extend_from_slice(&arrived[left..])?;
        self.bytes = bytes;
        self.skipped -= left as u64;
        Ok(())
    }

    // Leaves out bytes, also some that have not arrived yet.
    fn skip(&mut self, count: u64)
        ensures { self.new ≡ without self.old count }
    {
        let here = self.bytes.len() - self.read;
        let now = count.min(here as u64) as usize;
        self.read += now;
        self.skipped = count - now as u64;
    }

    /// Leaves out the frame with which the bytes begin.
    pub fn pass(&mut self, frame: Frame)
        ensures { self.new ≡ after_frame self.old frame }
    {
        match frame {
            Frame::Incomplete => {}
            Frame::Content(_, end) => self.skip(end as u64),
            Frame::NoLength(count) => self.skip(count as u64),
            Frame::TooLong(header, length) => {
                self.skip(header as u64);
                self.skip(length);
            }
        }
    }
}
