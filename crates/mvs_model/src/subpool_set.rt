//! Sets of subpools.

ghost use Rattle.std.specs.Prelude.{◌≡◌, ◌<◌, ◌≤◌, ◌==◌, ◌||◌, ℕ, [], false, true, ◌↔◌, IsTrue, MatchOption, slice_index};
ghost use Rattle.std.specs.Int.{bit_at};
ghost use Rattle.std.specs.List.Sorted.{IsStrictlySortedBy};
ghost use Rattle.std.specs.Ordering.{nat_cmp};
ghost use Rattle.mvs_model.specs.Storage.{is_one_of};

use crate::subpool::SubpoolId;
use std::marker::Model;

// The words of a set of subpools.
const WORDS: usize = 65;

/// A set of subpools, seen as its members in rising order.
#[derive(Drop)]
pub struct SubpoolSet {
    words: [u64; WORDS],
}

impl Model for SubpoolSet {
    ghost use Rattle.std.specs.Prelude.{ℕ, List};
    ghost use Rattle.mvs_model.specs.SubpoolSet.{AreSubpools, members};

    ghost Value = { List ℕ };

    ghost view = { λ s. members s.words };

    ghost invariant = { λ s. AreSubpools s.words };
}

// Returns the word with one bit set.
fn one_bit(at: u32) -> u64
    requires { at < 64 }
    ensures same { bit_at result at ≡ 1 }
    ensures others { (i : ℕ) → (i ≡ at → ⊥) → bit_at result i ≡ 0 }
{
    1 << at
}

// Returns the first bit of the word, at or after one, that is set.
fn first_bit(word: u64, from: u32) -> Option<u32>
    requires { from < 64 }
    ensures { MatchOption result ((i : ℕ) → from ≤ i → i < 64 → bit_at word i ≡ 0)
        (λ at. (from ≤ at) × (at < 64) × (bit_at word at ≡ 1)
        × ((i : ℕ) → from ≤ i → i < at → bit_at word i ≡ 0)) }
{
    let rest = word >> from;
    if rest == 0 {
        None
    } else {
        Some(from + rest.trailing_zeros())
    }
}

// Returns the first word from a place on that is not zero; the number of words where each is.
fn first_word(words: &[u64; WORDS], from: usize) -> usize
    requires { from ≤ 65 }
    ensures after { from ≤ result }
    ensures clear { (w : ℕ) → from ≤ w → w < result → slice_index words.now w ≡ 0 }
    ensures most { result ≤ 65 }
{
    for w in from..WORDS {
        if words[w] != 0 {
            return w;
        }
    }
    WORDS
}

impl SubpoolSet {
    /// Returns the set without a member.
    pub fn empty() -> SubpoolSet
        ensures { result ≡ [] }
    {
        SubpoolSet { words: [0; WORDS] }
    }

    /// Puts a subpool into the set.
    pub fn insert(&mut self, subpool: SubpoolId)
        ensures members { (s : ℕ)
            → is_one_of self.new s ≡ ((s == subpool) || is_one_of self.old s) }
        ensures rising { IsStrictlySortedBy nat_cmp self.new }
    {
        let at = subpool.get() as usize;
        self.words[at / 64] |= one_bit((at % 64) as u32);
    }

    /// Returns whether the subpool is a member.
    pub fn contains(&self, subpool: SubpoolId) -> bool
        ensures { result ≡ is_one_of self.now subpool }
    {
        let at = subpool.get() as usize;
        (self.words[at / 64] >> (at % 64)) & 1 == 1
    }

    /// Returns whether no subpool is a member.
    pub fn is_empty(&self) -> bool
        ensures { IsTrue result ↔ (self.now ≡ []) }
    {
        match self.first_from(0) {
            Some(_) => false,
            None => true,
        }
    }

    /// Returns the first member from a number on.
    pub fn first_from(&self, from: usize) -> Option<SubpoolId>
        ensures { MatchOption result ((s : ℕ) → from ≤ s → is_one_of self.now s ≡ false)
            (λ r. (from ≤ r) × (is_one_of self.now r ≡ true)
            × ((s : ℕ) → from ≤ s → s < r → is_one_of self.now s ≡ false)) }
    {
        let mut at = from;
        'words: while at < 64 * WORDS {
            let first = at / 64 * 64;
            if let Some(bit) = first_bit(self.words[at / 64], (at % 64) as u32) {
                return Some(SubpoolId::new((first + bit as usize) as u16));
            }
            at = 64 * first_word(&self.words, at / 64 + 1);
        }
        None
    }
}
