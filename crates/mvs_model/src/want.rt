//! What an obtain requests.

ghost use Rattle.std.specs.Prelude.{◌≡◌, ◌≤◌, ◌<◌, ◌^◌};
ghost use Rattle.mvs_model.specs.Want.{WantValue, IsWant, AskValue, IsAsk, want_of, fixed_want};

use crate::bounded::{Exponent, Length};
use std::marker::Model;

/// Where an area can be placed: only below 16 megabytes, or above if it fits there and else below.
#[derive(Clone, Copy, Debug, PartialEq, Eq)]
pub enum Side {
    Below,
    Either,
}

/// Where a task's program resides (Assembler Services Reference, GETMAIN, LOC=RES).
#[derive(Clone, Copy, Debug, PartialEq, Eq)]
pub enum Residence {
    Below,
    Above,
}

/// The operand LOC: BELOW and 24 are `Below`, ANY and 31 are `Any`, RES is `Res` (Assembler Services Reference,
/// GETMAIN).
#[derive(Clone, Copy, Debug, PartialEq, Eq)]
pub enum Loc {
    Below,
    Any,
    Res,
}

/// Which of the places that serve is taken: the lowest, or the highest. This project's choice.
#[derive(Clone, Copy, Debug, PartialEq, Eq)]
pub enum Placement {
    Low,
    High,
}

/// The requirements for an area: least and greatest length in bytes, both whole doublewords; the power of two of the boundary to
/// begin on; that of the boundary not to cross; its side.
#[derive(Clone, Copy, Debug, PartialEq, Eq)]
pub struct Want {
    least: u32,
    most: u32,
    start: Exponent,
    within: Option<Exponent>,
    side: Side,
}

impl Model for Want {
    ghost use Rattle.mvs_model.specs.Want.{WantValue, IsWant};

    ghost Value = { WantValue };

    ghost view = { λ w. record { least = w.least; most = w.most; start = w.start; within = w.within; side = w.side } };

    ghost invariant = { λ w. IsWant (record { least = w.least; most = w.most; start = w.start; within = w.within; side = w.side }) };

    ghost inverse = { λ w. record { least = w.least; most = w.most; start = w.start; within = w.within; side = w.side } };
}

impl Want {
    /// Makes a want of one length, rounded up to doublewords.
    pub fn fixed(len: Length, start: Exponent, side: Side) -> Want
        ensures { result ≡ fixed_want len start side }
    {
        let len = len.get().div_ceil(8) * 8;
        Want {
            least: len,
            most: len,
            start,
            within: None,
            side,
        }
    }

    /// Lowers the least length to one doubleword, 8 bytes.
    pub fn from_doubleword(&self) -> Want
        ensures same { result ≡ record self.now { least = 8 } }
        ensures wanted { IsWant self.now }
    {
        Want { least: 8, ..*self }
    }

    /// Returns the least length in bytes.
    pub fn least(&self) -> u32
        ensures least { result ≡ self.now.least }
        ensures wanted { IsWant self.now }
    {
        self.least
    }

    /// Returns the greatest length in bytes.
    pub fn most(&self) -> u32
        ensures most { result ≡ self.now.most }
        ensures wanted { IsWant self.now }
    {
        self.most
    }

    /// Returns the power of two of the boundary that the place begins on.
    pub fn start(&self) -> Exponent
        ensures start { result ≡ self.now.start }
        ensures wanted { IsWant self.now }
    {
        self.start
    }

    /// Returns the power of two of the boundary that the place must not cross.
    pub fn within(&self) -> Option<Exponent>
        ensures within { result ≡ self.now.within }
        ensures wanted { IsWant self.now }
    {
        self.within
    }

    /// Returns the side on which the place may be.
    pub fn side(&self) -> Side
        ensures { result ≡ self.now.side }
    {
        self.side
    }
}

/// What an obtain requests, as written: least and greatest length in bytes, the power of two of the boundary to begin on, that of
/// the boundary not to cross, the location.
#[derive(Clone, Copy, Debug, PartialEq, Eq)]
pub struct AreaRequest {
    least: u32,
    most: u32,
    start: Exponent,
    within: Option<Exponent>,
    loc: Loc,
}

impl Model for AreaRequest {
    ghost use Rattle.mvs_model.specs.Want.{AskValue, IsAsk};

    ghost Value = { AskValue };

    ghost view = { λ a. record { least = a.least; most = a.most; start = a.start; within = a.within; loc = a.loc } };

    ghost invariant = { λ a. IsAsk (record { least = a.least; most = a.most; start = a.start; within = a.within; loc = a.loc }) };

    ghost inverse = { λ a. record { least = a.least; most = a.most; start = a.start; within = a.within; loc = a.loc } };
}

impl AreaRequest {
    /// Makes a request for one length on a boundary.
    pub fn fixed(len: Length, start: Exponent, loc: Loc) -> AreaRequest
        ensures { result
            ≡ record { least = len; most = len; start = start; within = None; loc = loc } }
    {
        let len = len.get();
        AreaRequest {
            least: len,
            most: len,
            start,
            within: None,
            loc,
        }
    }

    /// Lowers the least length in bytes: the greatest length that has a place is then granted.
    pub fn at_least(self, least: Length) -> AreaRequest
        requires { least ≤ self.most }
        ensures { result ≡ record self { least = least } }
    {
        AreaRequest {
            least: least.get(),
            ..self
        }
    }

    /// Keeps the area within a boundary, a power of two in bytes.
    pub fn within(self, within: Exponent) -> AreaRequest
        ensures { result ≡ record self { within = Some within } }
    {
        AreaRequest {
            within: Some(within),
            ..self
        }
    }

    /// Returns the least length in bytes, as written.
    pub fn least(&self) -> u32
        ensures { result ≡ self.now.least }
    {
        self.least
    }

    /// Returns the greatest length in bytes, as written.
    pub fn most(&self) -> u32
        ensures most { result ≡ self.now.most }
        ensures short { result < 2 ^ 31 }
    {
        self.most
    }

    /// Returns the location.
    pub fn loc(&self) -> Loc
        ensures { result ≡ self.now.loc }
    {
        self.loc
    }

    /// Returns the requirements for a side. The lengths are rounded up to doublewords.
    pub fn want(&self, side: Side) -> Want
        ensures want { result ≡ want_of self.now side }
        ensures some { 1 ≤ self.now.least }
    {
        Want {
            least: self.least.div_ceil(8) * 8,
            most: self.most.div_ceil(8) * 8,
            start: self.start,
            within: self.within,
            side,
        }
    }
}
