//! Decimal and hexadecimal digits.

ghost use Rattle.std.specs.Prelude.{◌≡◌, ◌≤◌, ◌<◌, ◌^◌, ◌==◌, true, false, length, MatchOption};
ghost use Rattle.std.specs.List.{list_all};
ghost use Rattle.mvs_model.specs.Reading.{is_digit, is_number, number, is_in_range, is_hex_digit, hex_digit, hex_number, is_quoted, quoted};

use mvs_model::bounded::Bounded;

// Returns whether each byte is a digit.
fn are_digits(text: &[u8]) -> bool
    ensures { result ≡ list_all is_digit text.now }
{
    text.iter().all(|byte| byte.is_ascii_digit())
}

/// Returns whether the text is a number: one or more digits.
pub fn is_number(text: &[u8]) -> bool
    ensures { result ≡ is_number text.now }
{
    match text {
        [] => false,
        _ => are_digits(text),
    }
}

/// Returns the number that at most ten digits write.
pub fn number(text: &[u8]) -> u64
    requires short { length text.now ≤ 10 }
    requires digits { is_number text.now ≡ true }
    ensures { result ≡ number text.now }
{
    let mut value = 0;
    for byte in text {
        value = value * 10 + u64::from(*byte - b'0');
    }
    value
}

/// Returns the number that a text of at most ten bytes is, where it is one.
pub fn read_number(text: &[u8]) -> Option<u64>
    requires { length text.now ≤ 10 }
    ensures { MatchOption result (is_number text.now ≡ false)
        (λ value. (is_number text.now ≡ true) × (value ≡ number text.now)) }
{
    if text.is_empty() {
        return None;
    }
    let mut value = 0;
    for byte in text {
        if !byte.is_ascii_digit() {
            return None;
        }
        value = value * 10 + u64::from(*byte - b'0');
    }
    Some(value)
}

/// Returns whether a number is in a range. A text of more than ten digits never is.
pub fn is_in_range(least: u32, most: u32, text: &[u8]) -> bool
    requires { is_number text.now ≡ true }
    ensures { result ≡ is_in_range least most text.now }
{
    if text.len() > 10 {
        return false;
    }
    let value = number(text);
    u64::from(least) <= value && value <= u64::from(most)
}

/// Returns the number that is in its range.
pub fn bounded<const LEAST: u32, const MOST: u32>(text: &[u8]) -> Bounded<LEAST, MOST>
    requires digits { is_number text.now ≡ true }
    requires range { is_in_range LEAST MOST text.now ≡ true }
    ensures { result ≡ number text.now }
{
    Bounded::new(number(text) as u32)
}

// Returns whether each digit is a zero.
fn are_zeros(text: &[u8]) -> bool
    ensures { result ≡ list_all (λ b. b == 48) text.now }
{
    text.iter().all(|byte| *byte == b'0')
}

// Returns whether two numbers that are written with as many digits, or the first with more, are the same.
fn is_same_after_zeros(longer: &[u8], shorter: &[u8]) -> bool
    requires length { length shorter.now ≤ length longer.now }
    requires longer { list_all is_digit longer.now ≡ true }
    requires shorter { list_all is_digit shorter.now ≡ true }
    ensures { result ≡ (number longer.now == number shorter.now) }
{
    let (zeros, digits) = longer.split_at(longer.len() - shorter.len());
    are_zeros(zeros) && digits == shorter
}

/// Returns whether two numbers are the same. Zeros in front count for nothing.
pub fn is_same_number(one: &[u8], other: &[u8]) -> bool
    requires one { is_number one.now ≡ true }
    requires other { is_number other.now ≡ true }
    ensures { result ≡ (number one.now == number other.now) }
{
    if one.len() < other.len() {
        is_same_after_zeros(other, one)
    } else {
        is_same_after_zeros(one, other)
    }
}

/// Returns whether the byte is one of 0 to 9 and A to F.
pub fn is_hex_digit(byte: u8) -> bool
    ensures { result ≡ is_hex_digit byte }
{
    matches!(byte, b'0'..=b'9' | b'A'..=b'F')
}

// Returns what the digit counts.
fn hex_digit(byte: u8) -> u8
    requires { is_hex_digit byte ≡ true }
    ensures digit { result ≡ hex_digit byte }
    ensures small { result < 16 }
{
    if byte <= b'9' {
        byte - b'0'
    } else {
        byte - b'A' + 10
    }
}

/// Returns whether each byte is a hexadecimal digit.
pub fn are_hex_digits(text: &[u8]) -> bool
    ensures { result ≡ list_all is_hex_digit text.now }
{
    text.iter().all(|byte| is_hex_digit(*byte))
}

/// Returns the number that at most eight hexadecimal digits write.
pub fn hex_number(text: &[u8]) -> u64
    requires short { length text.now ≤ 8 }
    requires digits { list_all is_hex_digit text.now ≡ true }
    ensures value { result ≡ hex_number text.now }
    ensures small { result < 16 ^ length text.now }
{
    let mut value = 0;
    for byte in text {
        value = value * 16 + u64::from(hex_digit(*byte));
    }
    value
}

/// Returns the text between the quotes of X'..'.
pub fn quoted(text: &[u8]) -> Option<&[u8]>
    ensures { MatchOption result (is_quoted text.now ≡ false)
        (λ digits. (is_quoted text.now ≡ true) × (digits.now ≡ quoted text.now)) }
{
    if text.len() < 3 || text[0] != b'X' || text[1] != b'\'' || text[text.len() - 1] != b'\'' {
        return None;
    }
    Some(&text[2..text.len() - 1])
}
