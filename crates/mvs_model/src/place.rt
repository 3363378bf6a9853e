//! Addresses and places.

ghost use Rattle.std.specs.Prelude.{◌≡◌, ◌<◌, ◌≤◌, ◌^◌};

use std::marker::Model;

/// An address of 31 bits, at most X'7FFFFFFF' (Assembler Services Guide, 31-bit addressing).
#[derive(Clone, Copy, Debug, PartialEq, Eq, PartialOrd, Ord)]
pub struct Addr {
    value: u32,
}

impl Model for Addr {
    ghost use Rattle.std.specs.Prelude.{ℕ, ◌<◌, ◌^◌};

    ghost Value = { ℕ };

    ghost view = { λ a. a.value };

    ghost invariant = { λ a. a.value < 2 ^ 31 };

    ghost inverse = { λ n. record { value = n } };
}

impl Addr {
    /// Makes an address.
    pub fn new(value: u32) -> Addr
        requires { value < 2 ^ 31 }
        ensures { result ≡ value }
    {
        Addr { value }
    }

    /// Returns the address as a number.
    pub fn get(&self) -> u32
        ensures value { result ≡ self.now }
        ensures small { result < 2 ^ 31 }
    {
        self.value
    }
}

/// Bytes that follow one another: the address of the first, and how many there are, 1 to 2,147,483,648. A place
/// may pass the last address.
#[derive(Clone, Copy, Debug, PartialEq, Eq)]
pub struct Place {
    addr: u32,
    len: u32,
}

impl Model for Place {
    ghost use Rattle.mvs_model.specs.Place.{PlaceValue, IsPlace};

    ghost Value = { PlaceValue };

    ghost view = { λ p. record { addr = p.addr; len = p.len } };

    ghost invariant = { λ p. IsPlace (record { addr = p.addr; len = p.len }) };

    ghost inverse = { λ p. record { addr = p.addr; len = p.len } };
}

impl Place {
    /// Makes a place of `len` bytes from an address on.
    pub fn new(addr: Addr, len: u32) -> Place
        requires some { 1 ≤ len }
        requires most { len ≤ 2 ^ 31 }
        ensures { result ≡ record { addr = addr; len = len } }
    {
        Place {
            addr: addr.get(),
            len,
        }
    }

    /// Returns the address of its first byte.
    pub fn addr(&self) -> Addr
        ensures { result ≡ self.now.addr }
    {
        Addr { value: self.addr }
    }

    /// Returns the length in bytes.
    pub fn len(&self) -> u32
        ensures len { result ≡ self.now.len }
        ensures some { 1 ≤ result }
        ensures most { result ≤ 2 ^ 31 }
    {
        self.len
    }
}
