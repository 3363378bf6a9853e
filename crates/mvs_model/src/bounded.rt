//! Numbers that keep to a range.

ghost use Rattle.std.specs.Prelude.{◌≡◌, ◌<◌, ◌≤◌, SomeIff};
ghost use Rattle.mvs_model.specs.Numbers as numbers;

use crate::numbers::{
    LAST_ADDRESS, LEAST_CELL_BYTES, LEAST_EXPONENT, MOST_CELL_BYTES, MOST_CELLS, MOST_EXPONENT,
    MOST_MOVED, MOST_OFFSET, MOST_PAGES_ABOVE, MOST_PAGES_BELOW, MOST_SHOWN, MOST_USER_CODE,
};
use std::marker::Model;

/// A number from `LOW` to `HIGH`.
#[derive(Clone, Copy, Debug, PartialEq, Eq)]
pub struct Bounded<const LOW: u32, const HIGH: u32> {
    value: u32,
}

impl<const LOW: u32, const HIGH: u32> Model for Bounded<LOW, HIGH> {
    ghost use Rattle.std.specs.Prelude.{ℕ, ◌≤◌};

    ghost Value = { ℕ };

    ghost view = { λ n. n.value };

    ghost invariant = { λ n. (LOW ≤ n.value) × (n.value ≤ HIGH) };

    ghost inverse = { λ n. record { value = n } };
}

impl<const LOW: u32, const HIGH: u32> Bounded<LOW, HIGH> {
    /// Makes a number that is known to be in its range.
    pub fn new(value: u32) -> Self
        requires low { LOW ≤ value }
        requires high { value ≤ HIGH }
        ensures { result ≡ value }
    {
        Bounded { value }
    }

    /// Takes a number that may be out of the range: None where it is.
    pub fn checked(value: u32) -> Option<Self>
        ensures { SomeIff result ((LOW ≤ value) × (value ≤ HIGH)) value }
    {
        if LOW <= value && value <= HIGH {
            Some(Bounded { value })
        } else {
            None
        }
    }

    /// Returns the number.
    pub fn get(&self) -> u32
        ensures value { result ≡ self.now }
        ensures low { LOW ≤ result }
        ensures high { result ≤ HIGH }
    {
        self.value
    }

    /// Returns the least and the greatest number.
    pub fn range() -> (u32, u32)
        ensures { result ≡ (LOW, HIGH) }
    {
        (LOW, HIGH)
    }
}

/// A length in bytes as a statement writes it, before it is rounded up to doublewords (Assembler Services
/// Reference, GETMAIN).
pub type Length = Bounded<1, LAST_ADDRESS>;

/// The power of two of a boundary: STARTBDY and CONTBDY (Assembler Services Reference, GETMAIN).
pub type Exponent = Bounded<LEAST_EXPONENT, MOST_EXPONENT>;

/// The bytes of a cell of a cell pool. The upper limit is this project's choice.
pub type CellSize = Bounded<LEAST_CELL_BYTES, MOST_CELL_BYTES>;

/// How many cells a part of a cell pool has. The upper limit is this project's choice.
pub type CellCount = Bounded<1, MOST_CELLS>;

/// A user completion code (Assembler Services Reference, ABEND).
pub type UserCode = Bounded<0, MOST_USER_CODE>;

/// How many bytes SHOW prints. SHOW is this project's own statement.
pub type ShowLength = Bounded<1, MOST_SHOWN>;

/// How many bytes MOVE copies. MOVE is this project's own statement.
pub type MoveLength = Bounded<1, MOST_MOVED>;

/// What is added to the address of a named area, in bytes: this project's notation.
pub type Offset = Bounded<0, MOST_OFFSET>;

/// The pages of the region below 16 megabytes. The limits are this project's choice.
pub type PagesBelow = Bounded<1, MOST_PAGES_BELOW>;

/// The pages of the region above 16 megabytes. The limits are this project's choice.
pub type PagesAbove = Bounded<0, MOST_PAGES_ABOVE>;

/// Returns the ranges of the numbers above, which are those of the definitions.
pub fn ranges() -> [(u32, u32); 10]
    ensures { result ≡ numbers.ranges }
{
    [
        Length::range(),
        Exponent::range(),
        CellSize::range(),
        CellCount::range(),
        UserCode::range(),
        ShowLength::range(),
        MoveLength::range(),
        Offset::range(),
        PagesBelow::range(),
        PagesAbove::range(),
    ]
}
