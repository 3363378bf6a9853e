//! Names and addresses.

ghost use Rattle.std.specs.Prelude.{◌≡◌, ◌||◌, not, true};
ghost use Rattle.std.specs.List.{list_all, list_any, after_first, before_first};
ghost use Rattle.mvs_model.specs.Name.{padded};
ghost use Rattle.mvs_model.specs.Reading.{is_name_byte, is_name, is_plus, is_absolute, is_named, is_address, is_address_in_range, is_in_range, number, location};

use crate::digits::{are_hex_digits, bounded, hex_number, is_in_range, is_number, quoted};
use crate::split_once::split_once;
use mvs_model::bounded::Offset;
use mvs_model::line::Location;
use mvs_model::name::Name;
use mvs_model::numbers::LAST_ADDRESS;
use mvs_model::place::Addr;

/// Returns whether a name may have the byte.
pub fn is_name_byte(byte: u8) -> bool
    ensures { result ≡ is_name_byte byte }
{
    if byte >= b'@' {
        byte <= b'Z'
    } else {
        byte.is_ascii_digit() || byte == b'#' || byte == b'$'
    }
}

// Returns whether a name may have each byte.
fn are_name_bytes(text: &[u8]) -> bool
    ensures { result ≡ list_all is_name_byte text.now }
{
    text.iter().all(|byte| is_name_byte(*byte))
}

/// Returns whether the text is a name.
pub fn is_name(text: &[u8]) -> bool
    ensures { result ≡ is_name text.now }
{
    match text {
        [] => false,
        [first, ..] => text.len() <= 8 && are_name_bytes(text) && !first.is_ascii_digit(),
    }
}

/// Returns the name that the text is.
pub fn name(text: &[u8]) -> Name
    requires { is_name text.now ≡ true }
    ensures { result ≡ padded text.now }
{
    Name::of(text)
}

// Returns whether the digits between quotes are an address.
fn is_absolute(digits: &[u8]) -> bool
    ensures { result ≡ is_absolute digits.now }
{
    !digits.is_empty() && digits.len() <= 8 && are_hex_digits(digits)
}

// Returns whether the text is a name, or a name with an offset.
fn is_named(text: &[u8]) -> bool
    ensures { result ≡ is_named text.now }
{
    let (area, offset) = split_once(text, b'+');
    match offset {
        None => is_name(area),
        Some(offset) => is_name(area) && is_number(offset),
    }
}

/// Returns whether the text is an address.
pub fn is_address(text: &[u8]) -> bool
    ensures { result ≡ is_address text.now }
{
    match quoted(text) {
        None => is_named(text),
        Some(digits) => is_absolute(digits),
    }
}

// Returns whether the offset after a name is in range, if there is one.
fn is_offset_in_range(text: &[u8]) -> bool
    requires { is_named text.now ≡ true }
    ensures { result
        ≡ (not (list_any is_plus text.now)
        || is_in_range 0 33554431 (after_first is_plus text.now)) }
{
    let (_, offset) = split_once(text, b'+');
    match offset {
        None => true,
        Some(offset) => is_in_range(0, 33_554_431, offset),
    }
}

/// Returns whether an address is in its range.
pub fn is_address_in_range(text: &[u8]) -> bool
    requires { is_address text.now ≡ true }
    ensures { result ≡ is_address_in_range text.now }
{
    match quoted(text) {
        None => is_offset_in_range(text),
        Some(digits) => hex_number(digits) <= u64::from(LAST_ADDRESS),
    }
}

// Returns the location that a name says, with its offset.
fn named(text: &[u8]) -> Location
    requires named { is_named text.now ≡ true }
    requires range { (not (list_any is_plus text.now)
        || is_in_range 0 33554431 (after_first is_plus text.now)) ≡ true }
    ensures { result
        ≡ Location.Named (padded (before_first is_plus text.now))
        (number (after_first is_plus text.now)) }
{
    let (area, offset) = split_once(text, b'+');
    match offset {
        None => Location::Named(name(area), Offset::new(0)),
        Some(offset) => Location::Named(name(area), bounded(offset)),
    }
}

/// Returns the location that an address says.
pub fn location(text: &[u8]) -> Location
    requires address { is_address text.now ≡ true }
    requires range { is_address_in_range text.now ≡ true }
    ensures { result ≡ location text.now }
{
    match quoted(text) {
        None => named(text),
        Some(digits) => Location::Absolute(Addr::new(hex_number(digits) as u32)),
    }
}
