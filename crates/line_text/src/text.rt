//! A line of text in a fixed array.

ghost use Rattle.std.specs.Prelude.{◌≡◌, ◌<◌, ◌≤◌, ◌+◌, ◌*◌, ◌/◌, ◌%◌, ◌++◌, ◌∷◌, [], List, ℕ, length, take, decimal};
ghost use Rattle.std.specs.List.{flat_map};
ghost use Rattle.mvs_model.specs.Name.{trimmed};
ghost use Rattle.mvs_model.specs.Texts.{last_digits, hex, glyph};

use mvs_model::name::Name;
use std::marker::Model;

/// The most bytes that a printed line has.
pub const ROOM: usize = 240;

/// The glyphs of the digits below sixteen.
const GLYPHS: [u8; 16] = *b"0123456789ABCDEF";

/// Text of at most 240 bytes.
#[derive(Drop)]
pub struct LineText {
    bytes: [u8; ROOM],
    len: usize,
}

impl Model for LineText {
    ghost Value = { List ℕ };

    ghost view = { λ t. take t.len t.bytes };

    ghost invariant = { λ t. t.len ≤ 240 };
}

impl LineText {
    /// Makes an empty text.
    pub fn new() -> LineText
        ensures { result ≡ [] }
    {
        LineText {
            bytes: [0; ROOM],
            len: 0,
        }
    }

    /// Returns its bytes.
    pub fn as_slice(&self) -> &[u8]
        ensures { result.now ≡ self.now }
    {
        &self.bytes[..self.len]
    }

    /// Returns how many bytes it has.
    pub fn len(&self) -> usize
        ensures { result ≡ length self.now }
    {
        self.len
    }

    /// Keeps the first n of its bytes.
    pub fn cut(&mut self, len: usize)
        requires { len ≤ length self.old }
        ensures { self.new ≡ take len self.old }
    {
        self.len = len;
    }

    /// Appends a byte.
    pub fn push(&mut self, byte: u8)
        requires { length self.old < 240 }
        ensures text { self.new ≡ self.old ++ byte ∷ [] }
        ensures len { length self.new ≡ length self.old + 1 }
    {
        self.bytes[self.len] = byte;
        self.len += 1;
    }

    /// Appends bytes.
    pub fn push_str(&mut self, bytes: &[u8])
        requires { length self.old + length bytes.now ≤ 240 }
        ensures text { self.new ≡ self.old ++ bytes.now }
        ensures len { length self.new ≡ length self.old + length bytes.now }
    {
        let end = self.len + bytes.len();
        self.bytes[self.len..end].copy_from_slice(bytes);
        self.len = end;
    }

    /// Appends a name without its padding, which may take eight bytes while it is put there.
    pub fn push_name(&mut self, name: &Name)
        requires { length self.old + 8 ≤ 240 }
        ensures text { self.new ≡ self.old ++ trimmed name.now }
        ensures len { length self.new ≤ length self.old + 8 }
    {
        let at = self.len;
        self.bytes[at..at + 8].copy_from_slice(&name.bytes());
        self.len = at + name.text().len();
    }

    /// Appends the two hexadecimal digits of a byte.
    pub fn push_byte(&mut self, byte: u8)
        requires { length self.old + 2 ≤ 240 }
        ensures text { self.new ≡ self.old ++ hex 2 byte }
        ensures len { length self.new ≡ length self.old + 2 }
    {
        let at = self.len;
        self.bytes[at] = digit_glyph(byte / 16);
        self.bytes[at + 1] = digit_glyph(byte % 16);
        self.len = at + 2;
    }

    // Appends the two digits of each byte, one byte after another.
    fn push_each(&mut self, bytes: &[u8])
        requires { length self.old + 2 * length bytes.now ≤ 240 }
        ensures text { self.new ≡ self.old ++ flat_map (hex 2) bytes.now }
        ensures len { length self.new ≡ length self.old + 2 * length bytes.now }
    {
        for byte in bytes {
            self.push_byte(*byte);
        }
    }

    /// Appends the two hexadecimal digits of each byte.
    pub fn push_bytes(&mut self, bytes: &[u8])
        requires { length self.old + 2 * length bytes.now ≤ 240 }
        ensures text { self.new ≡ self.old ++ flat_map (hex 2) bytes.now }
        ensures len { length self.new ≡ length self.old + 2 * length bytes.now }
    {
        let mut done = 0;
        while bytes.len() - done >= 16 {
            self.push_str(&digits_of_sixteen(&bytes[done..done + 16]));
            done += 16;
        }
        self.push_each(&bytes[done..]);
    }

    /// Appends the four hexadecimal digits of a number of sixteen bits.
    pub fn push_halfword(&mut self, number: u16)
        requires { length self.old + 4 ≤ 240 }
        ensures text { self.new ≡ self.old ++ hex 4 number }
        ensures len { length self.new ≡ length self.old + 4 }
    {
        self.push_byte((number / 256) as u8);
        self.push_byte((number % 256) as u8);
    }

    /// Appends the eight hexadecimal digits of a number of 32 bits.
    pub fn push_word(&mut self, number: u32)
        requires { length self.old + 8 ≤ 240 }
        ensures text { self.new ≡ self.old ++ hex 8 number }
        ensures len { length self.new ≡ length self.old + 8 }
    {
        self.push_halfword((number / 65_536) as u16);
        self.push_halfword((number % 65_536) as u16);
    }

    /// Appends a number in decimal, without leading zeros.
    pub fn push_decimal(&mut self, number: u32)
        requires { length self.old + 10 ≤ 240 }
        ensures text { self.new ≡ self.old ++ decimal number }
        ensures len { length self.new ≤ length self.old + 10 }
    {
        self.push_digits(number);
    }

    // Appends the digits of a number, the high ones first, three at a time.
    fn push_digits(&mut self, number: u32)
        requires { length self.old + length (decimal number) ≤ 240 }
        ensures { self.new ≡ self.old ++ decimal number }
    {
        if number >= 1_000 {
            self.push_digits(number / 1_000);
            self.push_three(number);
        } else if number >= 100 {
            self.push_three(number);
        } else if number >= 10 {
            self.push_two(number);
        } else {
            self.push(last_digit(number));
        }
    }

    // Appends the last three digits of a number.
    fn push_three(&mut self, number: u32)
        requires { length self.old + 3 ≤ 240 }
        ensures { self.new
            ≡ self.old ++ (48 + number / 100 % 10) ∷ (48 + number / 10 % 10) ∷ (48 + number % 10)
            ∷ [] }
    {
        let at = self.len;
        self.bytes[at] = last_digit(number / 100);
        self.bytes[at + 1] = last_digit(number / 10);
        self.bytes[at + 2] = last_digit(number);
        self.len = at + 3;
    }

    // Appends the last two digits of a number.
    fn push_two(&mut self, number: u32)
        requires { length self.old + 2 ≤ 240 }
        ensures { self.new ≡ self.old ++ (48 + number / 10 % 10) ∷ (48 + number % 10) ∷ [] }
    {
        let at = self.len;
        self.bytes[at] = last_digit(number / 10);
        self.bytes[at + 1] = last_digit(number);
        self.len = at + 2;
    }

    /// Appends the last digits of a number in a base of at most sixteen, as many as are asked for.
    pub fn push_last(&mut self, base: u32, digits: u32, number: u32)
        requires some { 2 ≤ base }
        requires most { base ≤ 16 }
        requires room { length self.old + digits ≤ 240 }
        ensures text { self.new ≡ self.old ++ last_digits base digits number }
        ensures len { length self.new ≡ length self.old + digits }
    {
        if digits > 0 {
            self.push_last(base, digits - 1, number / base);
            self.push(digit_glyph((number % base) as u8));
        }
    }

    /// Returns a copy.
    pub fn copied(&self) -> LineText
        ensures { result ≡ self.now }
    {
        LineText {
            bytes: self.bytes,
            len: self.len,
        }
    }
}

// Returns the last digit of a number in decimal.
fn last_digit(number: u32) -> u8
    ensures { result ≡ 48 + number % 10 }
{
    b'0' + (number % 10) as u8
}

// Returns the glyph of a digit below sixteen.
fn digit_glyph(digit: u8) -> u8
    requires { digit < 16 }
    ensures { result ≡ glyph digit }
{
    GLYPHS[usize::from(digit)]
}

// Returns the glyph of a digit below sixteen, computed and not looked up, so that the compiler can do many digits at once.
fn computed_glyph(digit: u8) -> u8
    requires { digit < 16 }
    ensures { result ≡ glyph digit }
{
    if digit < 10 {
        b'0' + digit
    } else {
        b'A' - 10 + digit
    }
}

// Returns the two digits of each of sixteen bytes.
fn digits_of_sixteen(bytes: &[u8]) -> [u8; 32]
    requires { length bytes.now ≡ 16 }
    ensures { result ≡ flat_map (hex 2) bytes.now }
{
    let mut digits = [0; 32];
    for i in 0..16 {
        digits[2 * i] = computed_glyph(bytes[i] / 16);
        digits[2 * i + 1] = computed_glyph(bytes[i] % 16);
    }
    digits
}
