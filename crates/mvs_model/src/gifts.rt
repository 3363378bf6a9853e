//! What a mother gives and shares by ATTACH.

ghost use Rattle.std.specs.Prelude.{◌≡◌, SomeIff, MatchOption, ℕ, true, false, ◌<◌, ◌≤◌};
ghost use Rattle.mvs_model.specs.Numbers.{task_numbers};
ghost use Rattle.mvs_model.specs.Gifts.{GiftsValue, IsGifts, gives, has_bit, shares};

use crate::numbers::TASK_NUMBERS;
use std::marker::Model;

/// The subpool numbers that a mother gives to a subtask and shares with it, bit n for number n, and whether
/// she shares subpool 0 (Assembler Services Reference, ATTACH: GSPV, GSPL, SHSPV, SHSPL, SZERO). Bit 0 is set
/// in neither field, and no bit in both.
#[derive(Clone, Copy, Debug, PartialEq, Eq)]
pub struct Gifts {
    given: u128,
    shared: u128,
    zero: bool,
}

impl Model for Gifts {
    ghost use Rattle.mvs_model.specs.Gifts.{GiftsValue, IsGifts};

    ghost Value = { GiftsValue };

    ghost view = { λ g. record { given = g.given; shared = g.shared; zero = g.zero } };

    ghost invariant = { λ g. IsGifts (record { given = g.given; shared = g.shared; zero = g.zero }) };

    ghost inverse = { λ g. record { given = g.given; shared = g.shared; zero = g.zero } };
}

// Returns the first number of a set, at or after one.
fn first_number(set: u128, from: u8) -> Option<u8>
    requires { from < task_numbers }
    ensures { MatchOption result ((n : ℕ) → from ≤ n → has_bit set n ≡ false)
        (λ n. (from ≤ n) × (n < task_numbers) × (has_bit set n ≡ true)
        × ((i : ℕ) → from ≤ i → i < n → has_bit set i ≡ false)) }
{
    let rest = set >> from;
    if rest == 0 {
        None
    } else {
        Some(from + rest.trailing_zeros() as u8)
    }
}

impl Gifts {
    /// Makes gifts from two sets of bits. Returns None if bit 0 is set, or if a bit is set in both.
    pub fn new(given: u128, shared: u128, zero: bool) -> Option<Gifts>
        ensures { let presents : GiftsValue = record { given = given; shared = shared; zero = zero }
            in SomeIff result (IsGifts presents) presents }
    {
        if given & shared != 0 || given % 2 != 0 || shared % 2 != 0 {
            return None;
        }
        Some(Gifts {
            given,
            shared,
            zero,
        })
    }

    /// Returns whether the mother gives the number; none from 128 on can be given.
    pub fn gives(&self, number: u8) -> bool
        ensures { result ≡ gives self.now number }
    {
        number < TASK_NUMBERS && (self.given >> number) & 1 == 1
    }

    /// Returns whether the mother shares the number; none from 128 on can be shared.
    pub fn shares(&self, number: u8) -> bool
        ensures { result ≡ shares self.now number }
    {
        number < TASK_NUMBERS && ((self.shared >> number) & 1 == 1 || self.zero && number == 0)
    }

    /// Returns the first number from one on that the mother gives.
    pub fn first_given(&self, from: u8) -> Option<u8>
        ensures { MatchOption result ((n : ℕ) → from ≤ n → gives self.now n ≡ false)
            (λ n. (from ≤ n) × (n < task_numbers) × (gives self.now n ≡ true)
            × ((i : ℕ) → from ≤ i → i < n → gives self.now i ≡ false)) }
    {
        if from < TASK_NUMBERS {
            first_number(self.given, from)
        } else {
            None
        }
    }

    /// Returns the first number from one on that the mother shares.
    pub fn first_shared(&self, from: u8) -> Option<u8>
        ensures { MatchOption result ((n : ℕ) → from ≤ n → shares self.now n ≡ false)
            (λ n. (from ≤ n) × (n < task_numbers) × (shares self.now n ≡ true)
            × ((i : ℕ) → from ≤ i → i < n → shares self.now i ≡ false)) }
    {
        if from >= TASK_NUMBERS {
            return None;
        }
        if self.zero && from == 0 {
            return Some(0);
        }
        first_number(self.shared, from)
    }
}
