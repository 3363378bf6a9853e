//! Hints on an operand that is malformed or out of its range.

use crate::hint::{Hint, is_common};
use crate::near::{near_key, near_word};
use crate::refused::takes as row_takes;
use crate::words::StatementName;
use job_script::digits::{are_hex_digits, hex_number, quoted, read_number};
use job_script::items::inside;
use job_script::keys::Key;
use job_script::kinds::Kind;
use job_script::rows::{Keyword, Row};
use job_script::split_once::split_once;
use std::alloc::Global;

// Returns whether a text has a letter in lower case.
fn has_lower(text: &[u8]) -> bool {
    text.iter().any(|byte| byte.is_ascii_lowercase())
}

// Returns the number that up to ten digits write.
fn short_number(text: &[u8]) -> Option<u64> {
    if text.len() > 10 {
        return None;
    }
    read_number(text)
}

// Returns the number that a text means which is not written in decimal: hexadecimal, or a product.
fn meant_number(text: &[u8]) -> Option<u64> {
    if let Some(digits) = quoted(text) {
        if digits.is_empty() || digits.len() > 8 || !are_hex_digits(digits) {
            return None;
        }
        return Some(hex_number(digits));
    }
    let (one, other) = split_once(text, b'*');
    short_number(one)?.checked_mul(short_number(other?)?)
}

// Returns the text after the digits at its beginning.
fn after_digits(text: &[u8]) -> &[u8] {
    for (i, byte) in text.iter().enumerate() {
        if !byte.is_ascii_digit() {
            return &text[i..];
        }
    }
    &[]
}

// Gives a hint for a text that should be a number.
fn number_hint(text: &[u8]) -> Hint<'_> {
    if let Some(number) = meant_number(text) {
        return Hint::Decimal(number);
    }
    if inside(text).is_some() {
        return Hint::Says("one number, without parentheses");
    }
    let rest = after_digits(text);
    if rest.len() < text.len() && rest.contains(&b'=') {
        return Hint::Comma(rest);
    }
    match rest {
        [b'K', ..] | [b'k', ..] | [b'M', ..] | [b'm', ..] => Hint::Says(
            "give the length in bytes, in decimal",
        ),
        _ => Hint::Nothing,
    }
}

// Gives a hint for a text that should be a name.
fn name_hint(text: &[u8]) -> Hint<'static> {
    if has_lower(text) {
        return Hint::Says("use upper case");
    }
    match text {
        [] => Hint::Nothing,
        [first, ..] if first.is_ascii_digit() => Hint::Says("a name cannot begin with a digit"),
        [b'(', ..] => Hint::Says("one name, without parentheses"),
        _ if text.len() > 8 => Hint::Says("longer than 8 characters"),
        _ if text.contains(&b'+') => Hint::Says("only a name is allowed"),
        _ => Hint::Nothing,
    }
}

// Gives a hint for a text that should be bytes.
fn bytes_hint(text: &[u8]) -> Hint<'_> {
    if let [b'C', b'\'', inner @ .., b'\''] = text {
        if !inner.is_empty() && is_common(inner) {
            return Hint::Ebcdic(inner);
        }
    }
    match quoted(text) {
        None => Hint::Nothing,
        Some([]) => Hint::Says("digits are missing"),
        Some(digits) if has_lower(digits) => Hint::Says("use upper case"),
        Some(digits) if digits.len() % 2 != 0 => Hint::Says("an odd number of digits"),
        Some(_) => Hint::Nothing,
    }
}

// Gives a hint for a text that should be an address.
fn address_hint(text: &[u8]) -> Hint<'static> {
    match quoted(text) {
        Some(digits) if has_lower(digits) => Hint::Says("use upper case"),
        Some(digits) if digits.len() > 8 => Hint::Says("more than 8 digits"),
        Some(_) => Hint::Nothing,
        None if text.contains(&b'-') => Hint::Says("an offset cannot be negative"),
        None => name_hint(split_once(text, b'+').0),
    }
}

// Gives a hint for a text that should be one of some words.
fn word_hint(alloc: Global, words: &'static [&'static str], text: &[u8]) -> Hint<'static> {
    if has_lower(text) {
        return Hint::Says("use upper case");
    }
    if text.starts_with(b"(") {
        return Hint::Says("one value: real storage is not simulated");
    }
    match near_word(alloc, words, text) {
        Some(word) => Hint::Meant(word),
        None => Hint::Nothing,
    }
}

/// Returns the hint for a text that is not of a kind.
pub fn value_hint(alloc: Global, kind: Kind, text: &[u8]) -> Hint<'_> {
    match kind {
        Kind::Number(_, _) => number_hint(text),
        Kind::Name => name_hint(text),
        Kind::Address => address_hint(text),
        Kind::Bytes(_) => bytes_hint(text),
        Kind::Word(words) => word_hint(alloc, words.texts(), text),
        Kind::HexByte => Hint::Says("without X and quotes, such as FILL=A5"),
        Kind::Pair(_, _) if inside(text).is_none() => Hint::Says(
            "in parentheses, such as (4096,8)",
        ),
        Kind::Numbers(_, _, _) | Kind::DistinctNumbers(_, _) if inside(text).is_none() => {
            Hint::Says("in parentheses, such as (8,16)")
        }
        Kind::DistinctNames(_) | Kind::Addresses(_) if inside(text).is_none() => {
            Hint::Says("in parentheses, such as (X,Y)")
        }
        Kind::NumberOrPair(_, _) if inside(text).is_none() => number_hint(text),
        Kind::Pair(..)
        | Kind::NumberOrPair(..)
        | Kind::Numbers(..)
        | Kind::DistinctNumbers(..)
        | Kind::DistinctNames(..)
        | Kind::Addresses(..) => Hint::Nothing,
    }
}

// Returns the two lengths of a pair.
fn lengths(text: &[u8]) -> Option<(u64, u64)> {
    let (largest, smallest) = split_once(inside(text)?, b',');
    Some((short_number(largest)?, short_number(smallest?)?))
}

/// Returns the hint for a text of a kind that is out of its range.
pub fn range_hint(key: &[u8], kind: Kind, text: &[u8]) -> Hint<'static> {
    match kind {
        Kind::Number(_, _) | Kind::DistinctNumbers(_, _)
            if key.starts_with(b"GSP") || key.starts_with(b"SHSP") => {
            Hint::Says("subpool 0 is shared unless SZERO=NO")
        }
        Kind::Pair(_, _) | Kind::NumberOrPair(_, _) => match lengths(text) {
            Some((largest, smallest)) if largest < smallest => {
                Hint::Says("the largest length comes first")
            }
            _ => Hint::Nothing,
        },
        Kind::Number(..)
        | Kind::HexByte
        | Kind::Word(..)
        | Kind::Name
        | Kind::Address
        | Kind::Bytes(..)
        | Kind::Numbers(..)
        | Kind::DistinctNumbers(..)
        | Kind::DistinctNames(..)
        | Kind::Addresses(..) => Hint::Nothing,
    }
}

// The keys that macros of MVS have and nothing here does.
const UNMODELLED: [&str; 24] = [
    "ALET",
    "BRANCH",
    "CALLRKY",
    "CHECKZERO",
    "ECB",
    "EP",
    "EPLOC",
    "ESTAI",
    "ETXR",
    "EXECUTABLE",
    "HDR",
    "INADDR",
    "JSTCB",
    "KEY",
    "LINKAGE",
    "MF",
    "NSHSPL",
    "NSHSPV",
    "OWNER",
    "RTCD",
    "SF",
    "TASKLIB",
    "TCB",
    "TCBADDR",
];

// Returns the key of another statement that takes what a key says, where the row takes that.
fn other_name(row: Row, key: &[u8]) -> Option<&'static str> {
    let others: &'static [Key] = match key {
        b"LV" | b"LEN" | b"LENGTH" | b"LA" => &[Key::Lv, Key::Length, Key::La],
        b"A" | b"ADDR" | b"ADR" | b"AREA" => &[Key::A, Key::Addr, Key::Cell],
        b"SIZE" | b"LRECL" => &[Key::Csize],
        b"SUBPOOL" | b"SUBPL" => &[Key::Sp],
        b"NAME" | b"EP" | b"EPLOC" => &[Key::Task],
        _ => &[],
    };
    for other in others {
        if row_takes(row, other.text().as_bytes()) {
            return Some(other.text());
        }
    }
    None
}

// Returns the key of one of the other forms of an operation.
fn in_other_form<'a>(called: &StatementName<'_>, key: &[u8]) -> Option<Hint<'a>> {
    for form in called.operation.forms() {
        let row = called.operation.row(form.as_bytes())?;
        for keyword in row.keywords() {
            if keyword.key.is(key) {
                return Some(Hint::Forms(called.operation, keyword.key));
            }
        }
    }
    None
}

// Returns whether a key is one that macros of MVS have and nothing here does.
fn is_unmodelled(key: &[u8]) -> bool {
    for other in UNMODELLED {
        if other.as_bytes() == key {
            return true;
        }
    }
    false
}

/// Returns the hint for a key that a statement does not take.
pub fn key_hint<'a>(alloc: Global, called: &StatementName<'_>, row: Row, key: &[u8]) -> Hint<'a> {
    if has_lower(key) {
        return Hint::Says("use upper case");
    }
    if let Some(other) = other_name(row, key) {
        return Hint::Meant(other);
    }
    if let Some(hint) = in_other_form(called, key) {
        return hint;
    }
    if is_unmodelled(key) {
        return Hint::Says("it exists on MVS, but is not simulated");
    }
    match near_key(alloc, row, key) {
        Some(word) => Hint::Meant(word),
        None => Hint::Nothing,
    }
}

/// Returns the keyword of a row that has a key.
pub fn keyword_of(row: Row, key: &[u8]) -> Option<Keyword> {
    for keyword in row.keywords() {
        if keyword.key.is(key) {
            return Some(*keyword);
        }
    }
    None
}
