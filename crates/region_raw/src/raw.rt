//! The functions that use raw pointers, and the calls of the heap. The rest of the crate depends only on their contracts.
ghost use Rattle.std.specs.Prelude.{◌≡◌, ℕ, ◌+◌, ◌<◌, ◌≤◌, ◌^◌, [], List, Option, Some, None, length, replicate, get_or, slice_set, IfSome};
ghost use Rattle.std.specs.Borrow.{sem};
ghost use denote.RawPtr.{Ptr};
ghost use Rattle.region_raw.specs.Rows.{IsRun, IsApart, run, emptied};
ghost use Rattle.region_raw.specs.Ownership.{owned, seen, to_be_freed};

use std::alloc::{Allocator, Global};
use std::marker::Model;
use std::slice;

/// Where a row of bytes begins. It owns nothing.
#[derive(Clone, Copy)]
pub struct Start {
    ptr: *mut u8,
}

/// The owner of a row of bytes, each blank or with a value. It needs no space.
pub struct RawBytes {
    ghost at: { Ptr },
    ghost bytes: { List (Option ℕ) },
}

impl Model for RawBytes {
    ghost also_owns = { λ owner. owned owner.at owner.bytes };

    ghost also_shares = { λ owner _ κ. seen owner.at owner.bytes κ };
}

/// The right and the duty to free a block of `len` bytes: it cannot be dropped. It needs no space.
pub struct Right {
    ghost at: { Ptr },
    ghost len: { ℕ },
}

impl Model for Right {
    ghost also_owns = { λ right. to_be_freed right.at right.len };
}

/// Makes a block of `len` blank bytes, at least one. Returns None if the heap has no memory.
pub fn take_block(alloc: &Global, len: usize) -> Option<(Start, RawBytes, Right)>
    requires some { 0 < len }
    requires small { len < 2 ^ 63 }
    ensures { IfSome result
        (λ made. (made.1.at ≡ made.0.ptr) × (made.1.bytes ≡ replicate len None)
        × (made.2.at ≡ made.0.ptr) × (made.2.len ≡ len)) }
{
    match alloc.allocate(len, 1) {
        Ok(ptr) => Some((Start { ptr }, RawBytes {}, Right {})),
        Err(_) => None,
    }
}

/// Makes a block of no bytes. It allocates no memory.
pub fn no_block() -> (Start, RawBytes, Right)
    ensures { (result.1.at ≡ result.0.ptr) × (result.1.bytes ≡ []) × (result.2.at ≡ result.0.ptr)
        × (result.2.len ≡ 0) }
{
    let none: [u8; 0] = [];
    let ptr = &raw const none as *mut u8;
    (Start { ptr }, RawBytes {}, Right {})
}

/// Frees a block of at least one byte. What values it has are forgotten.
pub fn give_block(alloc: &Global, start: Start, len: usize, bytes: RawBytes, right: Right)
    requires some { 0 < len }
    requires bytes { (bytes.at ≡ start.ptr) × (length bytes.bytes ≡ len) }
    requires right { (right.at ≡ start.ptr) × (right.len ≡ len) }
{
    let RawBytes {} = bytes;
    let Right {} = right;
    unsafe {
        alloc.deallocate(start.ptr, len, 1);
    }
}

/// Ends a block of no bytes: there is nothing to free.
pub fn end_block(bytes: RawBytes, right: Right)
    requires { (bytes.bytes ≡ []) × (right.len ≡ 0) }
{
    let RawBytes {} = bytes;
    let Right {} = right;
}

impl RawBytes {
    ghost use Rattle.region_raw.specs.BorrowsRaw.{BorrowsSecond, BorrowsRun};

    /// Returns the `n` bytes from `at` on.
    pub fn slice(&self, start: Start, at: usize, n: usize) -> &[u8]
        requires start { start.ptr ≡ self.now.at }
        requires filled { IsRun self.now.bytes at n }
        ensures { result.now ≡ run self.now.bytes at n }
    {
        unsafe { slice::from_raw_parts(start.ptr.add(at), n) }
    }

    /// Borrows the `n` bytes from `at` on for writing.
    pub fn slice_mut(&mut self, start: Start, at: usize, n: usize) -> &mut [u8]
        requires start { start.ptr ≡ self.old.at }
        requires filled { IsRun self.old.bytes at n }
        ensures* writes_back { sem 𝓛 (BorrowsRun self.entry at n result) }
        ensures value { result.now ≡ run self.old.bytes at n }
    {
        unsafe { slice::from_raw_parts_mut(start.ptr.add(at), n) }
    }

    /// Borrows the `n` bytes from `from` on for reading, and the `n` bytes from `to` on for writing.
    pub fn two(&mut self, start: Start, from: usize, to: usize, n: usize) -> (&[u8], &mut [u8])
        requires start { start.ptr ≡ self.old.at }
        requires apart { IsApart from to n }
        requires source { IsRun self.old.bytes from n }
        requires target { IsRun self.old.bytes to n }
        ensures* writes_back { sem 𝓛 (BorrowsSecond self.entry to n result) }
        ensures read { result.0.now ≡ run self.old.bytes from n }
        ensures written { result.1.now ≡ run self.old.bytes to n }
    {
        unsafe {
            (
                slice::from_raw_parts(start.ptr.add(from), n),
                slice::from_raw_parts_mut(start.ptr.add(to), n),
            )
        }
    }

    /// Gives a blank byte its first value.
    pub fn write(&mut self, start: Start, at: usize, value: u8)
        requires start { start.ptr ≡ self.old.at }
        requires inside { at < length self.old.bytes }
        requires blank { get_or self.old.bytes at None ≡ None }
        ensures place { self.new.at ≡ self.old.at }
        ensures bytes { self.new.bytes ≡ slice_set self.old.bytes at (Some value) }
    {
        unsafe { start.ptr.add(at).write(value) }
    }

    /// Makes the `n` bytes from `at` on blank. This is only for the proof, and costs nothing.
    pub fn clear(&mut self, at: usize, n: usize)
        requires { at + n ≤ length self.old.bytes }
        ensures place { self.new.at ≡ self.old.at }
        ensures bytes { self.new.bytes ≡ emptied self.old.bytes at n }
    {}
}
