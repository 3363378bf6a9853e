//! Names of tasks, areas, cells and cell pools.

ghost use Rattle.std.specs.Prelude.{◌≡◌, ◌≤◌, ◌<◌, ◌^◌, ◌==◌, ℕ, [], ◌∷◌, MatchOption, length, nat_eq, slice_index};
ghost use Rattle.std.specs.List.{position_or_len};
ghost use Rattle.std.specs.Int.{w64, from_be_bytes};
ghost use Rattle.std.specs.Cmp.{partial_order_from_own_ties};
ghost use Rattle.std.specs.Cmp.Lexicographic.{pointwise};
ghost use Rattle.std.specs.Cmp.Rules.{comparing, hashing};
ghost use Rattle.std.specs.Ordering.{as_partial_cmp};
ghost use Rattle.std.proofs.Common.{rules};
ghost use Rattle.mvs_model.specs.Name.{AreBytes, IsNameText, name_cmp, padded, trimmed};

use std::cmp::Ordering;
use std::hash::{Hash, Hasher};
use std::marker::Model;

/// One to eight bytes without a blank, padded with blanks to eight; in byte order. Which bytes a script may
/// write in a name is decided where the script is read.
#[derive(Clone, Copy, Debug)]
pub struct Name {
    bytes: [u8; 8],
}

impl Model for Name {
    ghost use Rattle.std.specs.Prelude.{List, ℕ};
    ghost use Rattle.mvs_model.specs.Name.{IsName};

    ghost Value = { List ℕ };

    ghost view = { λ n. n.bytes };

    ghost invariant = { λ n. IsName n.bytes };

    ghost inverse = { λ b. record { bytes = b } };
}

// Returns the text and blanks up to eight bytes.
fn pad(text: &[u8]) -> [u8; 8]
    requires { length text.now ≤ 8 }
    ensures { result ≡ padded text.now }
{
    let mut bytes = [b' '; 8];
    for i in 0..8 {
        if i < text.len() {
            bytes[i] = text[i];
        }
    }
    bytes
}

impl Name {
    /// Returns the name with this text, or None if the text is empty, longer than eight bytes, or has a blank.
    pub fn new(text: &[u8]) -> Option<Name>
        ensures { MatchOption result (IsNameText text.now → ⊥)
            (λ name. IsNameText text.now × (name ≡ padded text.now)) }
    {
        if text.is_empty() || text.len() > 8 || text.contains(&b' ') {
            return None;
        }
        Some(Name { bytes: pad(text) })
    }

    /// Returns the name with a text that is known to be one.
    pub fn of(text: &[u8]) -> Name
        requires { IsNameText text.now }
        ensures { result ≡ padded text.now }
    {
        Name { bytes: pad(text) }
    }

    // Returns the bytes as a number, the first one the highest.
    fn key(&self) -> u64
        ensures key { result ≡ from_be_bytes w64 self.now }
        ensures eight { length self.now ≡ 8 }
        ensures bytes { AreBytes self.now }
    {
        spelled(self.bytes)
    }

    /// Returns the text with its padding.
    pub fn bytes(&self) -> [u8; 8]
        ensures { result ≡ self.now }
    {
        self.bytes
    }

    /// Returns the text without its padding.
    pub fn text(&self) -> &[u8]
        ensures text { result.now ≡ trimmed self.now }
        ensures len { length result.now ≤ 8 }
    {
        &self.bytes[..text_len(&self.bytes)]
    }
}

// Returns the number that eight bytes spell, the first one the highest.
fn spelled(bytes: [u8; 8]) -> u64
    ensures value { result ≡ from_be_bytes w64 bytes }
    ensures bytes { AreBytes bytes }
{
    u64::from_be_bytes(bytes)
}

impl PartialEq for Name {
    ghost eq = { pointwise nat_eq };

    ghost laws = { Prim.search (comparing, rules) };

    // Returns the eight bytes at once.
    fn eq(&self, other: &Name) -> bool {
        self.key() == other.key()
    }
}

impl Eq for Name {
    ghost laws = { Prim.search (comparing, rules) };
}

impl Ord for Name {
    ghost cmp = { name_cmp };

    ghost total = { Prim.search (comparing, rules) };

    ghost matches_partial_cmp = { Prim.search (comparing, rules) };

    ghost matches_eq = { Prim.search (comparing, rules) };

    fn cmp(&self, other: &Name) -> Ordering {
        self.key().cmp(&other.key())
    }
}

impl PartialOrd for Name {
    ghost partial_cmp = { as_partial_cmp name_cmp };

    ghost laws = { partial_order_from_own_ties (Prim.search (comparing, rules)) (Prim.search (comparing, rules)) };

    fn partial_cmp(&self, other: &Name) -> Option<Ordering> {
        Some(self.cmp(other))
    }
}

impl Hash for Name {
    ghost hash_input = { λ n. n ∷ [] };

    ghost respects_eq = { Prim.search (hashing, rules) };

    // Hashes all bytes at once, so that a fast hasher multiplies once.
    fn hash<H: Hasher>(&self, state: &mut H) {
        state.write(&self.bytes);
    }
}

// Returns the number of bytes before the first blank.
fn text_len(bytes: &[u8]) -> usize
    ensures len { result ≡ position_or_len (λ b. b == 32) bytes.now }
    ensures within { result ≤ length bytes.now }
{
    for (i, byte) in bytes.iter().enumerate() {
        if *byte == b' ' {
            return i;
        }
    }
    bytes.len()
}
