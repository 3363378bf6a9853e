//! The explanation of an answer, the rule that it names, and the code of an abend.

ghost use Rattle.std.specs.Prelude.{◌≡◌, ◌++◌, OnOk, option_map, position, reverse, string_bytes};
ghost use Rattle.expected_answers.specs.ExpectedAnswers.{after_prefix, ends_step};
ghost use Rattle.language_server.specs.Explanations.{abend_code, after_open, after_rule, explanation_of, first_rule, is_open, rule_in, rule_of, starred};
ghost use Rattle.language_server.specs.Hovers.{after_feeds, starred_feed};

use crate::names::{has_bytes, split_line};
use crate::plain_text::push_shown;
use crate::words::{leading_number, length_to};
use job_script::split_once::split_once;
use std::alloc::AllocError;

// Returns what is after a prefix of a text, if it begins with it.
fn after_prefix<'a>(text: &'a [u8], prefix: &[u8]) -> Option<&'a [u8]>
    ensures { option_map (λ rest. rest.now) result ≡ after_prefix prefix.now text.now }
{
    text.strip_prefix(prefix)
}

/// Returns the text of a line that begins with an asterisk.
pub fn starred(line: &[u8]) -> Option<&[u8]>
    ensures { option_map (λ text. text.now) result ≡ starred line.now }
{
    after_prefix(line, b"* ")
}

/// Returns whether a line is the end of a step.
pub fn ends_step(line: &[u8]) -> bool
    ensures { result ≡ ends_step line.now }
{
    after_prefix(line, b"STEP ENDED ").is_some()
}

/// Returns the code of an abend that an answer has, as `S878`.
pub fn abend_code(answer: &[u8]) -> Option<&[u8]>
    ensures { option_map (λ code. code.now) result ≡ abend_code answer.now }
{
    let rest = after_prefix(answer, b"ABEND ")?;
    let (code, _) = split_once(rest, b' ');
    Some(code)
}

// ---- explanations

// Appends the text of a line that begins with an asterisk, after a line feed.
fn push_starred(text: &mut String, line: &[u8]) -> Result<(), AllocError>
    ensures { OnOk result
        (string_bytes text.new ≡ string_bytes text.old ++ starred_feed (starred line.now)) }
{
    match starred(line) {
        Some(said) => {
            text.push_str("\n")?;
            push_shown(text, said)
        }
        None => Ok(()),
    }
}

/// Appends the lines of an explanation, each after a line feed.
pub fn push_explanation(text: &mut String, others: &[u8]) -> Result<(), AllocError>
    ensures { OnOk result (string_bytes text.new
        ≡ string_bytes text.old ++ after_feeds (explanation_of others.now)) }
{
    let mut rest = others;
    'lines: while has_bytes(rest) {
        let (line, more) = split_line(rest);
        if ends_step(line) {
            return Ok(());
        }
        push_starred(text, line)?;
        match more {
            Some(next) => rest = next,
            None => return Ok(()),
        }
    }
    Ok(())
}

// ---- rules

// Returns the number of the bytes after the last opening parenthesis, if there is one.
fn open_place(text: &[u8]) -> Option<usize>
    ensures { result ≡ position is_open (reverse text.now) }
{
    text.iter().rev().position(|byte| *byte == b'(')
}

// Returns what is after the last opening parenthesis of a text; all of it, if it has none.
fn after_open(text: &[u8]) -> &[u8]
    ensures { result.now ≡ after_open text.now }
{
    let count = length_to(open_place(text), text.len());
    &text[text.len().saturating_sub(count)..]
}

// Returns what follows `rule` or `rules` in parentheses.
fn after_rule(text: &[u8]) -> Option<&[u8]>
    ensures { option_map (λ rest. rest.now) result
        ≡ after_rule text.now }
{
    let rest = after_open(text);
    match after_prefix(rest, b"rule ") {
        Some(number) => Some(number),
        None => after_prefix(rest, b"rules "),
    }
}

// Returns the number of the rule that a line of an explanation names.
fn rule_in(text: &[u8]) -> Option<u64>
    ensures { result ≡ rule_in text.now }
{
    leading_number(after_rule(text)?)
}

// Returns the number of the rule that a printed line names, if it begins with an asterisk.
fn line_rule(line: &[u8]) -> Option<u64>
    ensures { result ≡ rule_of (starred line.now) }
{
    rule_in(starred(line)?)
}

/// Returns the number of the first rule that an explanation names.
pub fn explained_rule(others: &[u8]) -> Option<u64>
    ensures { result ≡ first_rule (explanation_of others.now) }
{
    let mut rest = others;
    'lines: while has_bytes(rest) {
        let (line, more) = split_line(rest);
        if ends_step(line) {
            return None;
        }
        if let Some(number) = line_rule(line) {
            return Some(number);
        }
        rest = more?;
    }
    None
}
