//! Lists of a few items in fixed arrays, which take no memory.

ghost use Rattle.std.specs.Prelude.{◌≡◌, ◌<◌, ◌≤◌, ◌↔◌, [], ◌∷◌, ◌++◌, length, IsTrue, IsSorted, IsPermutation};

use std::marker::Model;

/// A list of `LEAST` to `MOST` items, in an array. Array elements after the items are not part of the value.
#[derive(Drop)]
pub struct ShortList<T: Copy, const LEAST: usize, const MOST: usize> {
    items: [T; MOST],
    len: usize,
}

impl<T: Copy, const LEAST: usize, const MOST: usize> Model for ShortList<T, LEAST, MOST> {
    ghost use Rattle.std.specs.Prelude.{List, take, ◌≤◌};

    ghost Value = { List T };

    ghost view = { λ l. take l.len l.items };

    ghost invariant = { λ l. (LEAST ≤ l.len) × (l.len ≤ MOST) };
}

impl<T: Copy, const LEAST: usize, const MOST: usize> ShortList<T, LEAST, MOST> {
    /// Makes a list without items. The filler fills the array, and is not part of the value.
    pub fn empty(filler: T) -> Self
        requires { LEAST ≡ 0 }
        ensures { result ≡ [] }
    {
        ShortList {
            items: [filler; MOST],
            len: 0,
        }
    }

    /// Makes a list of one item.
    pub fn one(item: T) -> Self
        requires least { LEAST ≤ 1 }
        requires most { 1 ≤ MOST }
        ensures { result ≡ item ∷ [] }
    {
        ShortList {
            items: [item; MOST],
            len: 1,
        }
    }

    /// Returns how many items there are.
    pub fn len(&self) -> usize
        ensures len { result ≡ length self.now }
        ensures least { LEAST ≤ result }
        ensures most { result ≤ MOST }
    {
        self.len
    }

    /// Returns whether there is no room for another item.
    pub fn is_full(&self) -> bool
        ensures full { IsTrue result ↔ (length self.now ≡ MOST) }
        ensures most { length self.now ≤ MOST }
    {
        self.len == MOST
    }

    /// Removes all items.
    pub fn clear(&mut self)
        requires { LEAST ≡ 0 }
        ensures { self.new ≡ [] }
    {
        self.len = 0;
    }

    /// Puts an item at the end of a list that is not full.
    pub fn push(&mut self, item: T)
        requires { length self.old < MOST }
        ensures { self.new ≡ self.old ++ item ∷ [] }
    {
        self.items[self.len] = item;
        self.len += 1;
    }

    /// Copies the items into a list of its own.
    pub fn copied(&self) -> Self
        ensures { result ≡ self.now }
    {
        ShortList {
            items: self.items,
            len: self.len,
        }
    }

    /// Returns the items.
    pub fn as_slice(&self) -> &[T]
        ensures items { result.now ≡ self.now }
        ensures least { LEAST ≤ length result.now }
        ensures most { length result.now ≤ MOST }
    {
        &self.items[..self.len]
    }
}

impl<T: Copy + Ord, const LEAST: usize, const MOST: usize> ShortList<T, LEAST, MOST> {
    /// Puts the items in order.
    pub fn sort(&mut self)
        ensures sorted { IsSorted T.cmp self.new }
        ensures same { IsPermutation self.old self.new }
    {
        self.items[..self.len].sort_unstable();
    }
}
