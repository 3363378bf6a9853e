//! What an operand may be.

ghost use Rattle.std.specs.Prelude.{◌≡◌, ◌<◌, ℕ, length, map, true, false};
ghost use Rattle.mvs_model.specs.Grammar as grammar;
ghost use Rattle.mvs_model.specs.Reading.{is_number, is_one_of, is_bytes, is_pair, is_pair_in_range, is_of, is_quoted, repeats, is_within, first_of};
ghost use Rattle.job_script.specs.Items.{is_list_of, has_twice, has_items_in_range, has_items};
ghost use Rattle.job_script.specs.Kinds.{as_words, as_kind, fault_in, checks_of};

use crate::addresses::{is_address, is_address_in_range, is_name};
use crate::digits::{are_hex_digits, is_in_range, is_number, number, quoted, read_number};
use crate::items::{Item, are_in_range, are_items, count, inside, is_twice, two};
use crate::split_once::split_once;
use mvs_model::line::Fault;

/// Words, one of which is the value of an operand.
#[derive(Clone, Copy)]
pub enum Words {
    /// DBLWD or PAGE.
    Boundary,
    /// BELOW, 24, ANY, 31 or RES.
    Location,
    /// YES or NO.
    YesNo,
    /// BELOW or ABOVE.
    Residence,
    /// COND, C, UNCOND or U.
    Conditional,
}

const BOUNDARY_WORDS: [&str; 2] = ["DBLWD", "PAGE"];

const LOCATION_WORDS: [&str; 5] = ["BELOW", "24", "ANY", "31", "RES"];

const YES_NO_WORDS: [&str; 2] = ["YES", "NO"];

const RESIDENCE_WORDS: [&str; 2] = ["BELOW", "ABOVE"];

const CONDITIONAL_WORDS: [&str; 4] = ["COND", "C", "UNCOND", "U"];

impl Words {
    /// Returns the words.
    pub fn texts(self) -> &'static [&'static str]
        ensures { map (λ word. word.now) result.now ≡ as_words self }
    {
        match self {
            Words::Boundary => &BOUNDARY_WORDS,
            Words::Location => &LOCATION_WORDS,
            Words::YesNo => &YES_NO_WORDS,
            Words::Residence => &RESIDENCE_WORDS,
            Words::Conditional => &CONDITIONAL_WORDS,
        }
    }
}

/// What the text of an operand has to be.
#[derive(Clone, Copy)]
pub enum Kind {
    /// A number from the first to the second.
    Number(u32, u32),
    /// Two hexadecimal digits.
    HexByte,
    /// One of these words.
    Word(Words),
    Name,
    Address,
    /// At least one byte and at most this number of bytes, in X'..'.
    Bytes(usize),
    /// A largest and a smallest number from the first to the second, in parentheses.
    Pair(u32, u32),
    /// A number, or a largest and a smallest one, from the first to the second.
    NumberOrPair(u32, u32),
    /// A list of at most this number of numbers in a range.
    Numbers(usize, u32, u32),
    /// A list of numbers in a range, without duplicates.
    DistinctNumbers(u32, u32),
    /// A list of at most this number of names, without duplicates.
    DistinctNames(usize),
    /// A list of at most this number of addresses.
    Addresses(usize),
}

// Returns whether the text is one of the words for a place in storage.
fn is_location_word(text: &[u8]) -> bool
    ensures { result ≡ is_one_of (as_words Words.Location) text.now }
{
    text == b"BELOW".as_slice()
        || text == b"24".as_slice()
        || text == b"ANY".as_slice()
        || text == b"31".as_slice()
        || text == b"RES".as_slice()
}

// Returns whether the text is one of the words that say whether a request is conditional.
fn is_conditional_word(text: &[u8]) -> bool
    ensures { result ≡ is_one_of (as_words Words.Conditional) text.now }
{
    text == b"COND".as_slice()
        || text == b"C".as_slice()
        || text == b"UNCOND".as_slice()
        || text == b"U".as_slice()
}

// Returns whether the text is one of the words.
fn is_word(words: Words, text: &[u8]) -> bool
    ensures { result ≡ is_one_of (as_words words) text.now }
{
    match words {
        Words::Boundary => text == b"DBLWD".as_slice() || text == b"PAGE".as_slice(),
        Words::Location => is_location_word(text),
        Words::YesNo => text == b"YES".as_slice() || text == b"NO".as_slice(),
        Words::Residence => text == b"BELOW".as_slice() || text == b"ABOVE".as_slice(),
        Words::Conditional => is_conditional_word(text),
    }
}

// Returns whether the text is two hexadecimal digits.
fn is_hex_byte(text: &[u8]) -> bool
    ensures { result ≡ is_of grammar.HexByte text.now }
{
    text.len() == 2 && are_hex_digits(text)
}

// Returns whether the text is an even number of hexadecimal digits between quotes.
fn is_bytes(text: &[u8]) -> bool
    ensures { result ≡ is_bytes text.now }
{
    match quoted(text) {
        None => false,
        Some([]) => false,
        Some(digits) => digits.len() % 2 == 0 && are_hex_digits(digits),
    }
}

// Returns whether there are at most a number of pairs of digits between the quotes.
fn has_at_most(most: usize, text: &[u8]) -> bool
    requires { is_bytes text.now ≡ true }
    ensures { result ≡ is_within (grammar.Bytes most) text.now }
{
    match quoted(text) {
        None => true,
        Some(digits) => digits.len() / 2 <= most,
    }
}

// Returns whether the text is a list of such items.
fn is_list_of(item: Item, text: &[u8]) -> bool
    ensures { result ≡ is_list_of item text.now }
{
    match inside(text) {
        None => false,
        Some(inner) => are_items(item, inner),
    }
}

// Returns whether the text is two numbers in parentheses.
fn is_pair(least: u32, most: u32, text: &[u8]) -> bool
    ensures { result ≡ is_pair text.now }
{
    match inside(text) {
        None => false,
        Some(inner) => count(inner) == 2 && are_items(Item::Number(least, most), inner),
    }
}

/// Returns whether a text is of a kind.
pub fn is_of(kind: Kind, text: &[u8]) -> bool
    ensures { result ≡ is_of (as_kind kind) text.now }
{
    match kind {
        Kind::Number(_, _) => is_number(text),
        Kind::HexByte => is_hex_byte(text),
        Kind::Word(words) => is_word(words, text),
        Kind::Name => is_name(text),
        Kind::Address => is_address(text),
        Kind::Bytes(_) => is_bytes(text),
        Kind::Pair(least, most) => is_pair(least, most, text),
        Kind::NumberOrPair(least, most) => is_number(text) || is_pair(least, most, text),
        Kind::Numbers(_, least, most) | Kind::DistinctNumbers(least, most) => {
            is_list_of(Item::Number(least, most), text)
        }
        Kind::DistinctNames(_) => is_list_of(Item::Name, text),
        Kind::Addresses(_) => is_list_of(Item::Address, text),
    }
}

// Returns whether an item of a list is a duplicate.
fn has_twice(item: Item, text: &[u8]) -> bool
    requires { is_list_of item text.now ≡ true }
    ensures { result ≡ has_twice item text.now }
{
    match inside(text) {
        None => false,
        Some(inner) => is_twice(item, inner),
    }
}

/// Returns whether a text of a kind has a duplicate.
pub fn repeats(kind: Kind, text: &[u8]) -> bool
    requires { is_of (as_kind kind) text.now ≡ true }
    ensures { result ≡ repeats (as_kind kind) text.now }
{
    match kind {
        Kind::DistinctNumbers(least, most) => has_twice(Item::Number(least, most), text),
        Kind::DistinctNames(_) => has_twice(Item::Name, text),
        Kind::Number(..)
        | Kind::HexByte
        | Kind::Word(..)
        | Kind::Name
        | Kind::Address
        | Kind::Bytes(..)
        | Kind::Pair(..)
        | Kind::NumberOrPair(..)
        | Kind::Numbers(..)
        | Kind::Addresses(..) => false,
    }
}

// Returns whether two numbers are in their range, and the second is not above the first.
fn is_pair_in_range(least: u32, most: u32, text: &[u8]) -> bool
    requires { is_pair text.now ≡ true }
    ensures { result ≡ is_pair_in_range least most text.now }
{
    let Some(inner) = inside(text) else {
        return false;
    };
    let (largest, smallest) = two(inner);
    is_in_range(least, most, largest)
        && is_in_range(least, most, smallest)
        && number(smallest) <= number(largest)
}

// Returns whether the items of a list are in their range.
fn has_items_in_range(item: Item, text: &[u8]) -> bool
    requires { is_list_of item text.now ≡ true }
    ensures { result ≡ has_items_in_range item text.now }
{
    match inside(text) {
        None => false,
        Some(inner) => are_in_range(item, inner),
    }
}

// Returns whether a list has at most a number of items.
fn has_items(item: Item, most: usize, text: &[u8]) -> bool
    requires { is_list_of item text.now ≡ true }
    ensures { result ≡ has_items most text.now }
{
    match inside(text) {
        None => false,
        Some(inner) => count(inner) <= most,
    }
}

/// Returns whether a text of a kind is in its range.
pub fn is_within(kind: Kind, text: &[u8]) -> bool
    requires { is_of (as_kind kind) text.now ≡ true }
    ensures { result ≡ is_within (as_kind kind) text.now }
{
    match kind {
        Kind::Number(least, most) => is_in_range(least, most, text),
        Kind::HexByte | Kind::Word(_) | Kind::Name => true,
        Kind::Address => is_address_in_range(text),
        Kind::Bytes(most) => has_at_most(most, text),
        Kind::Pair(least, most) => is_pair_in_range(least, most, text),
        Kind::NumberOrPair(least, most) => {
            if inside(text).is_some() {
                is_pair_in_range(least, most, text)
            } else {
                is_in_range(least, most, text)
            }
        }
        Kind::Numbers(count, least, most) => {
            let item = Item::Number(least, most);
            has_items(item, count, text) && has_items_in_range(item, text)
        }
        Kind::DistinctNumbers(least, most) => has_items_in_range(Item::Number(least, most), text),
        Kind::DistinctNames(count) => has_items(Item::Name, count, text),
        Kind::Addresses(count) => {
            has_items(Item::Address, count, text) && has_items_in_range(Item::Address, text)
        }
    }
}

// Returns the fault of an operand that should be a number, which is parsed only once.
fn check_number(least: u32, most: u32, text: &[u8], again: bool) -> Result<(), Fault>
    ensures { fault_in result ≡ first_of (checks_of (grammar.Number least most) again text.now) }
{
    if text.len() > 10 {
        return check_long(text, again);
    }
    let value = read_number(text).ok_or(Fault::InvalidOperand)?;
    if again {
        return Err(Fault::Repeated);
    }
    if value < u64::from(least) || u64::from(most) < value {
        return Err(Fault::OutOfRange);
    }
    Ok(())
}

// Returns the fault of a text of more than ten bytes, which is in no range.
fn check_long(text: &[u8], again: bool) -> Result<(), Fault>
    requires { 10 < length text.now }
    ensures { (least most : ℕ)
        → fault_in result ≡ first_of (checks_of (grammar.Number least most) again text.now) }
{
    if !is_number(text) {
        Err(Fault::InvalidOperand)
    } else if again {
        Err(Fault::Repeated)
    } else {
        Err(Fault::OutOfRange)
    }
}

// Returns the fault of an operand that should be a name.
fn check_name(text: &[u8], again: bool) -> Result<(), Fault>
    ensures { fault_in result ≡ first_of (checks_of grammar.Name again text.now) }
{
    if !is_name(text) {
        Err(Fault::InvalidOperand)
    } else if again {
        Err(Fault::Repeated)
    } else {
        Ok(())
    }
}

// Returns the fault of an operand that should be an address and is not in hexadecimal digits: a name, and an offset after a plus
// sign.
fn check_named(text: &[u8], again: bool) -> Result<(), Fault>
    requires { is_quoted text.now ≡ false }
    ensures { fault_in result ≡ first_of (checks_of grammar.Address again text.now) }
{
    let (area, offset) = split_once(text, b'+');
    if !is_name(area) {
        return Err(Fault::InvalidOperand);
    }
    match offset {
        None if again => Err(Fault::Repeated),
        None => Ok(()),
        Some(offset) => check_number(0, 33_554_431, offset, again),
    }
}

// Returns the fault of an operand that should be an address.
fn check_address(text: &[u8], again: bool) -> Result<(), Fault>
    ensures { fault_in result ≡ first_of (checks_of grammar.Address again text.now) }
{
    match quoted(text) {
        None => check_named(text, again),
        Some(_) => check_text(Kind::Address, text, again),
    }
}

// Checks the text of an operand of any kind.
fn check_text(kind: Kind, text: &[u8], again: bool) -> Result<(), Fault>
    ensures { fault_in result ≡ first_of (checks_of (as_kind kind) again text.now) }
{
    if !is_of(kind, text) {
        return Err(Fault::InvalidOperand);
    }
    if again || repeats(kind, text) {
        return Err(Fault::Repeated);
    }
    if !is_within(kind, text) {
        return Err(Fault::OutOfRange);
    }
    Ok(())
}

/// Returns the fault of an operand of a kind; `again` is true if its keyword is a duplicate.
pub fn check(kind: &Kind, text: &[u8], again: bool) -> Result<(), Fault>
    ensures { fault_in result ≡ first_of (checks_of (as_kind kind.now) again text.now) }
{
    match kind {
        Kind::Number(least, most) => check_number(*least, *most, text, again),
        Kind::Name => check_name(text, again),
        Kind::Address => check_address(text, again),
        Kind::HexByte
        | Kind::Word(..)
        | Kind::Bytes(..)
        | Kind::Pair(..)
        | Kind::NumberOrPair(..)
        | Kind::Numbers(..)
        | Kind::DistinctNumbers(..)
        | Kind::DistinctNames(..)
        | Kind::Addresses(..) => check_text(*kind, text, again),
    }
}
