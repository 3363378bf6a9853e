//! What the texts of operands say that were found well formed and in their ranges.

ghost use Rattle.std.specs.Prelude.{◌≡◌, ◌≤◌, ◌+◌, ◌∷◌, map, true, length};
ghost use Rattle.std.specs.List.{list_all};
ghost use Rattle.mvs_model.specs.Name.{padded};
ghost use Rattle.mvs_model.specs.Reading.{items, number, location, largest, smallest, quoted, hex_bytes, hex_number, is_hex_digit};
ghost use Rattle.job_script.specs.Values.{IsExtent, IsNumbers, IsNames, IsLocations, IsSomeBytes};

use crate::addresses::{location, name};
use crate::digits::{bounded, hex_number, quoted};
use crate::items::{between, inside, two};
use crate::split_once::split_once;
use mvs_model::bounded::Length;
use mvs_model::line::{Locations, Names};
use mvs_model::request::{Bytes, Lengths};
use mvs_model::short_list::ShortList;

/// Returns the largest and the smallest length, which are one where one is written.
pub fn extent(text: &[u8]) -> (Length, Length)
    requires { IsExtent text.now }
    ensures largest { result.0 ≡ largest text.now }
    ensures smallest { result.1 ≡ smallest text.now }
    ensures ordered { result.1 ≤ result.0 }
{
    match inside(text) {
        None => {
            let length = bounded(text);
            (length, length)
        }
        Some(inner) => {
            let (largest, smallest) = two(inner);
            (bounded(largest), bounded(smallest))
        }
    }
}

/// Returns the lengths of a list.
pub fn lengths(text: &[u8]) -> Lengths
    requires { IsNumbers text.now }
    ensures { result ≡ map number (items text.now) }
{
    let (first, mut more) = split_once(between(text), b',');
    let mut list = ShortList::one(bounded(first));
    'items: while let Some(rest) = more {
        let (item, next) = split_once(rest, b',');
        list.push(bounded(item));
        more = next;
    }
    list
}

/// Returns the names of a list.
pub fn names(text: &[u8]) -> Names
    requires { IsNames text.now }
    ensures { result ≡ map padded (items text.now) }
{
    let (first, mut more) = split_once(between(text), b',');
    let mut list = ShortList::one(name(first));
    'items: while let Some(rest) = more {
        let (item, next) = split_once(rest, b',');
        list.push(name(item));
        more = next;
    }
    list
}

/// Returns the locations of a list of addresses.
pub fn locations(text: &[u8]) -> Locations
    requires { IsLocations text.now }
    ensures { result ≡ map location (items text.now) }
{
    let (first, mut more) = split_once(between(text), b',');
    let mut list = ShortList::one(location(first));
    'items: while let Some(rest) = more {
        let (item, next) = split_once(rest, b',');
        list.push(location(item));
        more = next;
    }
    list
}

// Returns the byte that two hexadecimal digits write.
pub fn byte(digits: &[u8]) -> u8
    requires two { length digits.now ≡ 2 }
    requires digits { list_all is_hex_digit digits.now ≡ true }
    ensures { result ≡ hex_number digits.now }
{
    hex_number(digits) as u8
}

// Returns the byte of the first two digits, and the digits after them.
fn next_byte(digits: &[u8]) -> (u8, &[u8])
    requires two { 2 ≤ length digits.now }
    requires digits { list_all is_hex_digit digits.now ≡ true }
    ensures bytes { hex_bytes digits.now ≡ result.0 ∷ hex_bytes result.1.now }
    ensures digits { list_all is_hex_digit result.1.now ≡ true }
    ensures len { length result.1.now + 2 ≡ length digits.now }
{
    let (first, rest) = digits.split_at(2);
    (byte(first), rest)
}

/// Returns the bytes between quotes.
pub fn bytes(text: &[u8]) -> Bytes
    requires { IsSomeBytes text.now }
    ensures { result ≡ hex_bytes (quoted text.now) }
{
    let Some(digits) = quoted(text) else {
        unreachable!();
    };
    let (first, mut rest) = next_byte(digits);
    let mut list = ShortList::one(first);
    'bytes: while rest.len() >= 2 {
        let (byte, next) = next_byte(rest);
        list.push(byte);
        rest = next;
    }
    list
}
