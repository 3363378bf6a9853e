//! Positions of the Language Server Protocol, and the places of a text that they mean.

ghost use Rattle.std.specs.Prelude.{◌≡◌, ◌≤◌, ◌<◌, ◌+◌, ◌^◌, Some, drop, false, length, slice_get, take, true};
ghost use Rattle.language_server.specs.Positions.{IsBoundary, IsNotAfter, IsPlaceOf, begins_character, begins_with_feed, ends_line, position_of, units_of};

use editor_messages::Position;
use std::marker::Model;

/// Where every text begins.
const START: Position = Position {
    line: 0,
    character: 0,
};

// Returns the UTF-16 code units of the character that a byte begins.
fn units_of(byte: u8) -> usize
    ensures { result ≡ units_of byte }
{
    match byte {
        0..=0x7F => 1,
        0x80..=0xBF => 0,
        0xC0..=0xEF => 1,
        0xF0..=0xFF => 2,
    }
}

// Returns whether a character begins at a place, or the text ends there.
fn begins_character(text: &[u8], at: usize) -> bool
    ensures { result ≡ begins_character (drop at text.now) }
{
    match text.get(at) {
        Some(byte) => *byte < 0x80 || *byte >= 0xC0,
        None => true,
    }
}

// Returns whether a line feed is at a place.
fn is_feed_at(text: &[u8], at: usize) -> bool
    ensures { result ≡ begins_with_feed (drop at text.now) }
{
    match text.get(at) {
        Some(byte) => *byte == b'\n',
        None => false,
    }
}

// Returns whether a line ends with a byte, which is before a place.
fn ends_line(byte: u8, text: &[u8], next: usize) -> bool
    ensures { result ≡ ends_line byte (drop next text.now) }
{
    byte == b'\n' || byte == b'\r' && !is_feed_at(text, next)
}

// Walks through a text, and knows its position.
#[derive(Clone, Copy, Debug)]
struct Cursor {
    at: usize,
    position: Position,
}

impl Cursor {
    // Makes one at the beginning of a text.
    fn new() -> Cursor
        ensures at { result.at ≡ 0 }
        ensures position { result.position.line ≡ 0 }
        ensures character { result.position.character ≡ 0 }
    {
        Cursor {
            at: 0,
            position: START,
        }
    }

    // Moves past a byte of a text.
    fn step(&mut self, text: &[u8], byte: u8)
        requires short { length text.now < 2 ^ 32 }
        requires on { self.old.position ≡ position_of text.now self.old.at }
        requires some { slice_get text.now self.old.at ≡ Some byte }
        ensures at { self.new.at ≡ self.old.at + 1 }
        ensures on { self.new.position ≡ position_of text.now self.new.at }
    {
        self.at += 1;
        if ends_line(byte, text, self.at) {
            self.position.line += 1;
            self.position.character = 0;
        } else {
            self.position.character += units_of(byte);
        }
    }

    // Moves on to a later place of a text, or to its end if it has no such place.
    fn advance(&mut self, text: &[u8], place: usize)
        requires short { length text.now < 2 ^ 32 }
        requires on { self.old.position ≡ position_of text.now self.old.at }
        ensures on { self.new.position ≡ position_of text.now self.new.at }
        ensures exact { self.old.at ≤ place → self.new.position ≡ position_of text.now place }
    {
        'bytes: while self.at < place {
            match text.get(self.at) {
                Some(byte) => self.step(text, *byte),
                None => return,
            }
        }
    }
}

// Returns whether a position is another one, or before it.
fn is_not_after(position: Position, other: Position) -> bool
    ensures some { result ≡ true → IsNotAfter position other }
    ensures none { result ≡ false → IsNotAfter position other → ⊥ }
{
    position.line < other.line
        || position.line == other.line && position.character <= other.character
}

// Returns the place of a cursor, if it is between characters and not after a position, or else the place that was found before.
fn later(text: &[u8], cursor: &Cursor, position: Position, found: usize) -> usize
    requires on { cursor.now.position ≡ position_of text.now cursor.now.at }
    requires within { cursor.now.at ≤ length text.now }
    requires order { found ≤ cursor.now.at }
    requires boundary { IsBoundary text.now found }
    requires before { IsNotAfter (position_of text.now found) position }
    ensures boundary { IsBoundary text.now result }
    ensures before { IsNotAfter (position_of text.now result) position }
    ensures order { result ≤ cursor.now.at }
    ensures found { found ≤ result }
    ensures last { IsBoundary text.now cursor.now.at
        → IsNotAfter (position_of text.now cursor.now.at) position → cursor.now.at ≤ result }
{
    if begins_character(text, cursor.at) && is_not_after(cursor.position, position) {
        cursor.at
    } else {
        found
    }
}

/// Returns the place of a position: the last one, between characters, whose own position is not after it.
pub fn place_of(text: &[u8], position: Position) -> usize
    requires { length text.now < 2 ^ 32 }
    ensures place { IsPlaceOf text.now position result }
{
    let mut cursor = Cursor::new();
    let mut found = 0;
    for byte in text {
        found = later(text, &cursor, position, found);
        cursor.step(text, *byte);
    }
    later(text, &cursor, position, found)
}

/// The most bytes of a text whose positions are found.
pub const MOST_BYTES: usize = 1_048_576;

/// Finds the positions of places of a text; those of places in their order in one walk.
#[derive(Drop)]
pub struct Ruler<'a> {
    text: &'a [u8],
    cursor: Cursor,
}

impl<'a> Model for Ruler<'a> {
    ghost use Rattle.std.specs.Prelude.{◌≡◌, ◌≤◌, List, length, ℕ};
    ghost use Rattle.language_server.specs.Positions.{position_of};

    ghost Value = { List ℕ };

    ghost view = { λ r. r.text.now };

    ghost invariant = { λ r. (r.cursor.position ≡ position_of r.text.now r.cursor.at)
        × (length r.text.now ≤ 1048576) };
}

// Returns a text, or a front of it that has as many bytes as are allowed.
fn front(text: &[u8], most: usize) -> &[u8]
    ensures most { length result.now ≤ most }
    ensures all { length text.now ≤ most → result.now ≡ text.now }
    ensures front { result.now ≡ take most text.now }
{
    if text.len() <= most {
        text
    } else {
        &text[..most]
    }
}

impl<'a> Ruler<'a> {
    /// Makes one for a text of at most 1,048,576 bytes.
    pub fn new(text: &'a [u8]) -> Ruler<'a>
        ensures all { length text.now ≤ 1048576 → result ≡ text.now }
        ensures front { result ≡ take 1048576 text.now }
    {
        Ruler {
            text: front(text, MOST_BYTES),
            cursor: Cursor::new(),
        }
    }

    /// Returns the position of a place. A place after the text has that of its end.
    pub fn position(&mut self, place: usize) -> Position
        ensures text { self.new ≡ self.old }
        ensures exact { result ≡ position_of self.old place }
    {
        if place < self.cursor.at {
            self.cursor = Cursor::new();
        }
        self.cursor.advance(self.text, place);
        self.cursor.position
    }
}
