//! A region: a list of pages, each blank or 4096 bytes.
ghost use Rattle.std.specs.Prelude.{◌≡◌, ◌+◌, ◌<◌, ◌≤◌, ℕ, true, List, [], ◌∷◌, Some, None, length, replicate, slice_index, slice_index_or, slice_set, IfOk, IsOk};
ghost use Rattle.std.specs.Borrow.{sem};
ghost use Rattle.std.specs.Int.{to_be_bytes, w32};
ghost use Rattle.mvs_model.specs.Numbers.{page_bytes, most_pages_above};
ghost use Rattle.region_raw.specs.Pages.{IsBlank, IsPart, Writes, byte_of, is_open, part_of, with_part, word_of};
ghost use Rattle.region_raw.specs.Rows.{IsApart};

use crate::block::Block;
use mvs_model::error::OutOfMemory;
use mvs_model::numbers::PAGE_BYTES;
use std::alloc::Global;
use std::marker::Model;

const PAGE: usize = PAGE_BYTES as usize;

/// The pages of a region, at most 8,192, in one block of raw memory. A blank page has no bytes, and its memory is never read. Bytes
/// are addressed by their offset in the region, and the n bytes of a part may be in several pages. The block is freed when the
/// owner ends.
#[derive(Drop)]
pub struct Region {
    block: Block,
    count: usize,
}

impl Model for Region {
    ghost use Rattle.std.specs.Prelude.{◌≡◌, ℕ, ◌≤◌, List, Option, length};
    ghost use Rattle.mvs_model.specs.Numbers.{page_bytes, most_pages_above};
    ghost use Rattle.region_raw.specs.Pages.{Pages, pages_of, row_of, ArePages};

    ghost Value = { List (Option (List ℕ)) };

    ghost view = { λ region. pages_of page_bytes region.count region.block };

    ghost invariant = { λ region. (region.count ≤ most_pages_above) × ((ps : Pages) × ArePages page_bytes ps × (length ps ≡ region.count) × (region.block ≡ row_of ps)) };
}

impl Region {
    ghost use Rattle.region_raw.specs.BorrowsRegion.{BorrowsPart, BorrowsSecond};

    /// Makes a region of blank pages. Only this allocates memory; for no pages it allocates none.
    pub fn new(alloc: Global, pages: usize) -> Result<Region, OutOfMemory>
        requires { pages ≤ most_pages_above }
        ensures blank { IfOk result (λ region. region ≡ replicate pages None) }
        ensures none { pages ≡ 0 → IsOk result }
    {
        let block = Block::new(alloc, pages * PAGE)?;
        Ok(Region {
            block,
            count: pages,
        })
    }

    /// Opens a blank page, with `fill` in each byte.
    pub fn open_page(&mut self, page: usize, fill: u8)
        requires { IsBlank self.old page }
        ensures { self.new ≡ slice_set self.old page (Some (replicate page_bytes fill)) }
    {
        self.block.open(page * PAGE, PAGE, fill);
    }

    /// Opens a blank page, with the bytes of the same page of another region.
    pub fn copy_page(&mut self, page: usize, from: &Region)
        requires blank { IsBlank self.old page }
        requires open { is_open from.now page ≡ true }
        ensures { self.new ≡ slice_set self.old page (slice_index_or from.now page None) }
    {
        let bytes = from.block.part(page * PAGE, PAGE);
        self.block.open_with(page * PAGE, bytes);
    }

    /// Makes an open page blank. Its bytes are forgotten, which costs nothing.
    pub fn close_page(&mut self, page: usize)
        requires { is_open self.old page ≡ true }
        ensures { self.new ≡ slice_set self.old page None }
    {
        self.block.close(page * PAGE, PAGE);
    }

    /// Reads the byte at `at`.
    pub fn byte(&self, at: usize) -> u8
        requires { IsPart self.now at 1 }
        ensures { byte_of self.now at ≡ Some result }
    {
        self.part(at, 1)[0]
    }

    /// Writes a byte at `at`.
    pub fn put(&mut self, at: usize, value: u8)
        requires { IsPart self.old at 1 }
        ensures put { self.new ≡ with_part self.old at (value ∷ []) }
        ensures writes { Writes self.old at (value ∷ []) self.new }
    {
        self.part_mut(at, 1)[0] = value;
    }

    /// Returns the word in the four bytes from `at` on, the high byte first.
    pub fn word(&self, at: usize) -> u32
        requires { IsPart self.now at 4 }
        ensures { result ≡ word_of self.now at }
    {
        let bytes = self.part(at, 4);
        u32::from_be_bytes([bytes[0], bytes[1], bytes[2], bytes[3]])
    }

    /// Puts a word in the four bytes from `at` on, the high byte first.
    pub fn put_word(&mut self, at: usize, word: u32)
        requires { IsPart self.old at 4 }
        ensures put { self.new ≡ with_part self.old at (to_be_bytes w32 word) }
        ensures writes { Writes self.old at (to_be_bytes w32 word) self.new }
    {
        self.part_mut(at, 4).copy_from_slice(&word.to_be_bytes());
    }

    /// Gives each of the `n` bytes from `at` on the value.
    pub fn fill(&mut self, at: usize, n: usize, value: u8)
        requires { IsPart self.old at n }
        ensures filled { self.new ≡ with_part self.old at (replicate n value) }
        ensures writes { Writes self.old at (replicate n value) self.new }
    {
        self.part_mut(at, n).fill(value);
    }

    /// Returns the `n` bytes from `at` on.
    pub fn part(&self, at: usize, n: usize) -> &[u8]
        requires { IsPart self.now at n }
        ensures value { result.now ≡ part_of self.now at n }
        ensures len { length result.now ≡ n }
        ensures bytes { (k : ℕ) → k < n
            → byte_of self.now (at + k) ≡ Some (slice_index result.now k) }
    {
        let _ = &self.count;
        self.block.part(at, n)
    }

    /// Borrows the `n` bytes from `at` on for writing.
    pub fn part_mut(&mut self, at: usize, n: usize) -> &mut [u8]
        requires { IsPart self.old at n }
        ensures* writes_back { sem 𝓛 (BorrowsPart self.entry at n result) }
        ensures writes { (ws : List ℕ) → Writes self.old at ws (with_part self.old at ws) }
        ensures value { result.now ≡ part_of self.old at n }
        ensures len { length result.now ≡ n }
        ensures bytes { (k : ℕ) → k < n
            → byte_of self.old (at + k) ≡ Some (slice_index result.now k) }
    {
        self.block.part_mut(at, n)
    }

    /// Borrows the `n` bytes from `from` on for reading, and the `n` bytes from `to` on for writing. They do not overlap.
    pub fn two_parts(&mut self, from: usize, to: usize, n: usize) -> (&[u8], &mut [u8])
        requires apart { IsApart from to n }
        requires source { IsPart self.old from n }
        requires target { IsPart self.old to n }
        ensures* writes_back { sem 𝓛 (BorrowsSecond self.entry to n result) }
        ensures writes { (ws : List ℕ) → Writes self.old to ws (with_part self.old to ws) }
        ensures read { result.0.now ≡ part_of self.old from n }
        ensures written { result.1.now ≡ part_of self.old to n }
        ensures len { (length result.0.now ≡ n) × (length result.1.now ≡ n) }
        ensures source_bytes { (k : ℕ) → k < n
            → byte_of self.old (from + k) ≡ Some (slice_index result.0.now k) }
        ensures target_bytes { (k : ℕ) → k < n
            → byte_of self.old (to + k) ≡ Some (slice_index result.1.now k) }
    {
        self.block.two_parts(from, to, n)
    }
}
