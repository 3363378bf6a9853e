//! Subpools and their numbers.

ghost use Rattle.std.specs.Prelude.{◌≡◌, ◌<◌, ◌≤◌, SomeIff};
ghost use Rattle.mvs_model.specs.Subpool.{IsSubpoolNumber, is_step_number};
ghost use Rattle.mvs_model.specs.Numbers.{most_subpools, subpool_numbers};

use crate::numbers::{FIRST_STEP_NUMBER, SECOND_STEP_NUMBER, TASK_NUMBERS};
use std::marker::Model;

/// The number of a subpool that a program may name: 0 to 127, 131 and 132 (Assembler Services Guide, virtual storage
/// management).
#[derive(Clone, Copy, Debug, PartialEq, Eq, PartialOrd, Ord)]
pub struct SubNo {
    value: u8,
}

impl Model for SubNo {
    ghost use Rattle.std.specs.Prelude.{ℕ};
    ghost use Rattle.mvs_model.specs.Subpool.{IsSubpoolNumber};

    ghost Value = { ℕ };

    ghost view = { λ n. n.value };

    ghost invariant = { λ n. IsSubpoolNumber n.value };

    ghost inverse = { λ n. record { value = n } };
}

// Returns whether a number is one of the job step task's.
fn is_step_number(value: u8) -> bool
    ensures { result ≡ is_step_number value }
{
    value == FIRST_STEP_NUMBER || value == SECOND_STEP_NUMBER
}

impl SubNo {
    /// Returns the number of a subpool; None where a request that names it is refused as naming an invalid subpool.
    pub fn new(value: u8) -> Option<SubNo>
        ensures { SomeIff result (IsSubpoolNumber value) value }
    {
        if value < TASK_NUMBERS || is_step_number(value) {
            Some(SubNo { value })
        } else {
            None
        }
    }

    /// Returns the number of a subpool that is known to be one.
    pub fn of(value: u8) -> SubNo
        requires { IsSubpoolNumber value }
        ensures { result ≡ value }
    {
        SubNo { value }
    }

    /// Returns the number.
    pub fn get(&self) -> u8
        ensures value { result ≡ self.now }
        ensures valid { IsSubpoolNumber result }
        ensures low { result < subpool_numbers }
    {
        self.value
    }

    /// Returns whether subpools of the number are the job step task's, whichever task names it (this project's choice).
    pub fn is_of_step(&self) -> bool
        ensures { result ≡ is_step_number self.now }
    {
        is_step_number(self.value)
    }
}

/// A subpool of the step, by a bare number that nothing prints, below 4,098.
#[derive(Clone, Copy, Debug, PartialEq, Eq)]
pub struct SubpoolId {
    value: u16,
}

impl Model for SubpoolId {
    ghost use Rattle.mvs_model.specs.Numbers.{most_subpools};
    ghost use Rattle.std.specs.Prelude.{ℕ, ◌<◌};

    ghost Value = { ℕ };

    ghost view = { λ s. s.value };

    ghost invariant = { λ s. s.value < most_subpools };

    ghost inverse = { λ n. record { value = n } };
}

impl SubpoolId {
    /// Makes the identifier of a subpool.
    pub fn new(value: u16) -> SubpoolId
        requires { value < most_subpools }
        ensures { result ≡ value }
    {
        SubpoolId { value }
    }

    /// Returns the number.
    pub fn get(&self) -> u16
        ensures value { result ≡ self.now }
        ensures low { result < most_subpools }
    {
        self.value
    }
}
