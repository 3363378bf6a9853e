//! The name that was read last: most requests are made by the task that made the one before.

ghost use Rattle.std.specs.Prelude.{◌≡◌, ◌↔◌, IsTrue, SomeIff};
ghost use Rattle.mvs_c.specs.Asks.{IsNamed, name_value};

use crate::ask::name_of;
use mvs_model::name::Name;
use std::marker::Model;

/// Eight bytes, and the name that they are, or None if they are no name.
#[derive(Drop)]
pub struct LastName {
    bytes: [u8; 8],
    name: Option<Name>,
}

impl Model for LastName {
    ghost use Rattle.std.specs.Prelude.{List, ℕ, SomeIff};
    ghost use Rattle.mvs_c.specs.Asks.{IsNamed, name_value};

    ghost Value = { List ℕ };

    ghost view = { λ l. l.bytes };

    ghost invariant = { λ l. SomeIff l.name (IsNamed l.bytes) (name_value l.bytes) };
}

// Returns whether two names have the same eight bytes, which are compared at once.
fn is_same(one: &[u8; 8], other: &[u8; 8]) -> bool
    ensures { IsTrue result ↔ (one.now ≡ other.now) }
{
    u64::from_be_bytes(*one) == u64::from_be_bytes(*other)
}

impl LastName {
    /// Reads blanks, which are no name.
    pub fn none() -> LastName {
        let bytes = [b' '; 8];
        LastName {
            bytes,
            name: name_of(&bytes),
        }
    }

    /// Returns the name that eight bytes are, or None if they are no name.
    pub fn read(&mut self, bytes: &[u8; 8]) -> Option<Name>
        ensures { SomeIff result (IsNamed bytes.now) (name_value bytes.now) }
    {
        if !is_same(&self.bytes, bytes) {
            self.bytes = *bytes;
            self.name = name_of(bytes);
        }
        self.name
    }

    /// Returns a copy.
    pub fn copied(&self) -> LastName {
        LastName {
            bytes: self.bytes,
            name: self.name,
        }
    }
}
