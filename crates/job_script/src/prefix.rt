//! What a text starts with: some bytes, a number, a name, an address, bytes in quotes. What is marked `inline(always)` answers a wide value, which a
//! call would pass through memory.

ghost use Rattle.std.specs.Prelude.{◌≡◌, ◌≢◌, ◌≤◌, ◌++◌, ℕ, List, length, take, true, MatchOption, IfSome};
ghost use Rattle.std.specs.List.{list_all};
ghost use Rattle.mvs_model.specs.Grammar as grammar;
ghost use Rattle.mvs_model.specs.Reading.{is_digit, is_hex_digit, is_name_byte, number};
ghost use Rattle.job_script.specs.Fronts.{IsAddressFront, IsFront, IsNumberFront, is_remark};

use crate::addresses::is_name_byte;
use crate::digits::is_hex_digit;
use crate::is_plain;

/// Returns the text after a prefix, if it begins with it.
#[inline(always)]
pub fn strip_prefix<'a>(text: &'a [u8], front: &[u8]) -> Option<&'a [u8]>
    ensures { MatchOption result ((rest : List ℕ) → text.now ≢ front.now ++ rest)
        (λ rest. text.now ≡ front.now ++ rest.now) }
{
    text.strip_prefix(front)
}

// Returns how many digits a text starts with, at most ten, and the number that they write.
fn digits_in_front(text: &[u8]) -> (usize, u64)
    ensures digits { list_all is_digit (take result.0 text.now) ≡ true }
    ensures value { result.1 ≡ number (take result.0 text.now) }
    ensures few { result.0 ≤ 10 }
    ensures within { result.0 ≤ length text.now }
{
    let mut value = 0;
    for (i, byte) in text.iter().enumerate() {
        if i == 10 || !byte.is_ascii_digit() {
            return (i, value);
        }
        value = value * 10 + u64::from(*byte - b'0');
    }
    (text.len(), value)
}

/// Returns the number at the beginning of a text, if it has at most ten digits and is in a range, and the text after it.
#[inline(always)]
pub fn number_in_front(least: u32, most: u32, text: &[u8]) -> Option<(u32, &[u8])>
    ensures { IfSome result
        (λ r. (digits : List ℕ) × IsNumberFront least most text.now r.0 digits r.1.now) }
{
    let (end, value) = digits_in_front(text);
    if end == 0 || value < u64::from(least) || u64::from(most) < value {
        return None;
    }
    Some((value as u32, &text[end..]))
}

// Returns where the bytes end that a name may have.
fn name_end(text: &[u8]) -> usize
    ensures bytes { list_all is_name_byte (take result text.now) ≡ true }
    ensures within { result ≤ length text.now }
{
    for (i, byte) in text.iter().enumerate() {
        if !is_name_byte(*byte) {
            return i;
        }
    }
    text.len()
}

/// Returns the name at the beginning of a text, and the text after it.
pub fn name_in_front(text: &[u8]) -> Option<(&[u8], &[u8])>
    ensures { IfSome result (λ r. IsFront grammar.Name text.now r.0.now r.1.now) }
{
    let end = name_end(text);
    if end == 0 || end > 8 || text[0].is_ascii_digit() {
        return None;
    }
    Some((&text[..end], &text[end..]))
}

/// Returns the name at the beginning of a text, the offset after it, or 0, and the text after both.
pub fn address_in_front(text: &[u8]) -> Option<(&[u8], u32, &[u8])>
    ensures { IfSome result
        (λ r. (address : List ℕ) × IsAddressFront text.now r.0.now r.1 address r.2.now) }
{
    let (area, rest) = name_in_front(text)?;
    let Some(digits) = strip_prefix(rest, b"+") else {
        return Some((area, 0, rest));
    };
    let (offset, rest) = number_in_front(0, 33_554_431, digits)?;
    Some((area, offset, rest))
}

// Returns where the hexadecimal digits end.
fn hex_end(text: &[u8]) -> usize
    ensures digits { list_all is_hex_digit (take result text.now) ≡ true }
    ensures within { result ≤ length text.now }
{
    for (i, byte) in text.iter().enumerate() {
        if !is_hex_digit(*byte) {
            return i;
        }
    }
    text.len()
}

/// Returns the bytes X'..' at the beginning of a text, at most a hundred of them, and the text after them.
pub fn bytes_in_front(text: &[u8]) -> Option<(&[u8], &[u8])>
    ensures { IfSome result (λ r. IsFront (grammar.Bytes 100) text.now r.0.now r.1.now) }
{
    let digits = strip_prefix(text, b"X'")?;
    let end = hex_end(digits);
    if end == 0 || end > 200 || end % 2 != 0 {
        return None;
    }
    if end == digits.len() || digits[end] != b'\'' {
        return None;
    }
    Some((&text[..end + 3], &text[end + 3..]))
}

/// Returns whether a text after operands is not an operand: nothing, or a remark after a blank.
pub fn is_remark(text: &[u8]) -> bool
    ensures { result ≡ is_remark text.now }
{
    match text {
        [] => true,
        [blank, remark @ ..] => *blank == b' ' && is_plain(remark),
    }
}
