//! Words and numbers in a line.

ghost use Rattle.std.specs.Prelude.{◌≡◌, ◌≤◌, length, position, reverse, take, unwrap_or};
ghost use Rattle.language_server.specs.Words.{ends_digits, ends_word, first_digits, follows_rule, is_short, leading_number, remark_code, remark_rule, run_length, word_around, word_at};

use crate::hints::front;
use crate::span::Span;
use job_script::digits::read_number;

/// The longest word that may be a code.
const LONGEST_CODE: usize = 8;

/// The most digits of the number of a rule.
const MOST_DIGITS: usize = 3;

/// Returns an index, or else the length of a text.
pub fn length_to(index: Option<usize>, length: usize) -> usize
    ensures { result ≡ unwrap_or index length }
{
    match index {
        Some(index) => index,
        None => length,
    }
}

// Returns whether a byte is no letter and no digit.
fn ends_word(byte: u8) -> bool
    ensures { result ≡ ends_word byte }
{
    !byte.is_ascii_alphanumeric()
}

// Returns the index of the first byte that is no letter and no digit.
fn word_end(text: &[u8]) -> Option<usize>
    ensures { result ≡ position ends_word text.now }
{
    text.iter().position(|byte| ends_word(*byte))
}

// Returns the number of the bytes of a text after the last that is no letter and no digit, if there is one.
fn word_start(text: &[u8]) -> Option<usize>
    ensures { result ≡ position ends_word (reverse text.now) }
{
    text.iter().rev().position(|byte| ends_word(*byte))
}

// Returns the number of the letters and digits with which a text begins.
#[tactic(auto, using(crate::proofs::Hovering::run_within))]
fn word_length(text: &[u8]) -> usize
    ensures exact { result ≡ run_length ends_word text.now }
    ensures within { result ≤ length text.now }
{
    length_to(word_end(text), text.len())
}

// Returns the number of the letters and digits with which a text ends.
fn last_word_length(text: &[u8]) -> usize
    ensures { result ≡ run_length ends_word (reverse text.now) }
{
    length_to(word_start(text), text.len())
}

// Returns the word of letters and digits around a place of a line.
fn word_around(at: usize, line: &[u8]) -> Span
    requires { at ≤ length line.now }
    ensures { result ≡ word_around at line.now }
{
    let (before, after) = line.split_at(at);
    Span {
        start: at.saturating_sub(last_word_length(before)),
        end: at + word_length(after),
    }
}

/// Returns the word of letters and digits at a column.
pub fn word_at(line: &[u8], column: usize) -> Span
    ensures { result ≡ word_at line.now column }
{
    word_around(column.min(line.len()), line)
}

// ---- numbers

// Returns the index of the first byte that is no digit.
fn digits_end(text: &[u8]) -> Option<usize>
    ensures { result ≡ position ends_digits text.now }
{
    text.iter().position(|byte| !byte.is_ascii_digit())
}

// Returns the digits with which a text begins.
fn digits(text: &[u8]) -> &[u8]
    ensures { result.now ≡ take (run_length ends_digits text.now) text.now }
{
    front(text, length_to(digits_end(text), text.len()))
}

// Returns the first digits of a text, at most three of them.
fn first_digits(text: &[u8]) -> &[u8]
    ensures digits { result.now ≡ first_digits text.now }
    ensures short { length result.now ≤ 10 }
{
    front(digits(text), MOST_DIGITS)
}

/// Returns the number that the first digits of a text are, at most three of them.
pub fn leading_number(text: &[u8]) -> Option<u64>
    ensures { result ≡ leading_number text.now }
{
    read_number(first_digits(text))
}

// ---- remarks

// Returns whether a word may be a code, by its length.
fn is_short(word: &[u8]) -> bool
    ensures { result ≡ is_short word.now }
{
    word.len() <= LONGEST_CODE
}

// Returns whether a word follows `rule`.
fn follows_rule(line: &[u8], word: Span) -> bool
    ensures { result ≡ follows_rule line.now word }
{
    front(line, word.start).ends_with(b"rule ")
}

/// Returns the number of the rule that a word of a remark is, if it follows `rule`.
pub fn remark_rule(line: &[u8], word: Span) -> Option<u64>
    ensures { result ≡ remark_rule line.now word }
{
    let text = word.of(line);
    if is_short(text) && follows_rule(line, word) {
        leading_number(text)
    } else {
        None
    }
}

/// Returns a word of a remark that may be a code; none, if it is the number of a rule.
pub fn remark_code(line: &[u8], word: Span) -> &[u8]
    ensures { result.now ≡ remark_code line.now word }
{
    let text = word.of(line);
    if is_short(text) && remark_rule(line, word).is_none() {
        text
    } else {
        &[]
    }
}
