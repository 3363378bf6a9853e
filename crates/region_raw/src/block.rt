//! A block of raw memory that frees itself: a row of bytes, each blank or with a value.
ghost use Rattle.std.specs.Prelude.{◌≡◌, ◌+◌, ◌<◌, ◌≤◌, ◌^◌, None, length, replicate, IfOk, IsOk};
ghost use Rattle.std.specs.Borrow.{sem};
ghost use Rattle.region_raw.specs.Rows.{IsRun, IsApart, IsBlankRun, run, written, emptied};

use crate::raw::{RawBytes, Right, Start, end_block, give_block, no_block, take_block};
use mvs_model::error::OutOfMemory;
use std::alloc::Global;
use std::marker::Model;

/// A row of `len` bytes in raw memory, which is freed at its owner's end.
pub struct Block {
    start: Start,
    bytes: RawBytes,
    right: Right,
    len: usize,
    alloc: Global,
}

impl Model for Block {
    ghost use Rattle.std.specs.Prelude.{◌≡◌, ℕ, List, Option, length};

    ghost Value = { List (Option ℕ) };

    ghost view = { λ block. block.bytes.bytes };

    ghost invariant = { λ block. (block.start.ptr ≡ block.bytes.at) × (block.right.at ≡ block.start.ptr) × (block.right.len ≡ block.len) × (length block.bytes.bytes ≡ block.len) };
}

impl Drop for Block {
    fn drop(self) {
        let Block {
            start,
            bytes,
            right,
            len,
            alloc,
        } = self;
        if len == 0 {
            end_block(bytes, right);
        } else {
            give_block(&alloc, start, len, bytes, right);
        }
    }
}

impl Block {
    ghost use Rattle.region_raw.specs.BorrowsBlock.{BorrowsSecond, BorrowsRun};

    /// Makes a block of `len` blank bytes. It allocates no memory if `len` is 0.
    pub fn new(alloc: Global, len: usize) -> Result<Block, OutOfMemory>
        requires { len < 2 ^ 63 }
        ensures blank { IfOk result (λ block. block ≡ replicate len None) }
        ensures none { len ≡ 0 → IsOk result }
    {
        if len == 0 {
            let (start, bytes, right) = no_block();
            return Ok(Block {
                start,
                bytes,
                right,
                len,
                alloc,
            });
        }
        let (start, bytes, right) = take_block(&alloc, len).ok_or(OutOfMemory)?;
        Ok(Block {
            start,
            bytes,
            right,
            len,
            alloc,
        })
    }

    /// Gives each of the `n` blank bytes from `at` on the value `fill`.
    pub fn open(&mut self, at: usize, n: usize, fill: u8)
        requires blank { IsBlankRun self.old at n }
        requires small { at + n < 2 ^ 64 }
        ensures { self.new ≡ written self.old at n (replicate n fill) }
    {
        let start = self.start;
        for i in 0..n {
            self.bytes.write(start, at + i, fill);
        }
    }

    /// Gives the blank bytes from `at` on the values of `bytes`, one after another.
    pub fn open_with(&mut self, at: usize, bytes: &[u8])
        requires blank { IsBlankRun self.old at (length bytes.now) }
        requires small { at + length bytes.now < 2 ^ 64 }
        ensures { self.new ≡ written self.old at (length bytes.now) bytes.now }
    {
        let start = self.start;
        for i in 0..bytes.len() {
            self.bytes.write(start, at + i, bytes[i]);
        }
    }

    /// Makes the `n` bytes from `at` on blank.
    pub fn close(&mut self, at: usize, n: usize)
        requires { at + n ≤ length self.old }
        ensures { self.new ≡ emptied self.old at n }
    {
        self.bytes.clear(at, n);
    }

    /// Returns the `n` bytes from `at` on.
    pub fn part(&self, at: usize, n: usize) -> &[u8]
        requires { IsRun self.now at n }
        ensures { result.now ≡ run self.now at n }
    {
        self.bytes.slice(self.start, at, n)
    }

    /// Borrows the `n` bytes from `at` on for writing.
    pub fn part_mut(&mut self, at: usize, n: usize) -> &mut [u8]
        requires { IsRun self.old at n }
        ensures* writes_back { sem 𝓛 (BorrowsRun self.entry at n result) }
        ensures value { result.now ≡ run self.old at n }
    {
        self.bytes.slice_mut(self.start, at, n)
    }

    /// Borrows the `n` bytes from `from` on for reading, and the `n` bytes from `to` on for writing.
    pub fn two_parts(&mut self, from: usize, to: usize, n: usize) -> (&[u8], &mut [u8])
        requires apart { IsApart from to n }
        requires source { IsRun self.old from n }
        requires target { IsRun self.old to n }
        ensures* writes_back { sem 𝓛 (BorrowsSecond self.entry to n result) }
        ensures read { result.0.now ≡ run self.old from n }
        ensures written { result.1.now ≡ run self.old to n }
    {
        self.bytes.two(self.start, from, to, n)
    }
}
