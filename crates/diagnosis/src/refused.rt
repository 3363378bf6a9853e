//! The first operand of a statement that is not taken.

ghost use Rattle.std.specs.Prelude.{◌≡◌, ◌≤◌, None, bytes_eq, flat_map, length, IfSome, MatchOption};
ghost use Rattle.std.specs.List.{list_any};
ghost use Rattle.mvs_model.specs.Reading.{first_of, operand_checks, parts_within, with_left};
ghost use Rattle.job_script.specs.Parted.{field_in};
ghost use Rattle.job_script.specs.Rows.{key_text, row_at};
ghost use Rattle.diagnosis.specs.Blame.{IsRefused, part_of};

use job_script::given::GivenOperands;
use job_script::kinds::Kind;
use job_script::rows::{Keyword, Row};
use job_script::split_once::{next_operand, split_once};
use mvs_model::line::Fault;

/// An operand that is not accepted, its offset from the first one, and what is wrong with it.
#[derive(Clone, Copy)]
pub struct Refused<'a> {
    pub at: usize,
    pub operand: &'a [u8],
    pub fault: Fault,
    /// Returns the kind of a positional operand at this position.
    pub expected: Option<Kind>,
}

// Returns the kind of a positional operand after those that were accepted.
fn expected(given: &GivenOperands<'_>) -> Option<Kind> {
    if given.keyed {
        return None;
    }
    given
        .row
        .positional()
        .get(given.count)
        .map(|operand| operand.kind)
}

/// Returns the first operand that a row does not take, of those that a text starts with.
pub fn first_refused<'a>(row: Row, field: &'a [u8]) -> Option<Refused<'a>>
    ensures refused { MatchOption result
        (first_of
        (flat_map (operand_checks (row_at row)) (with_left (parts_within 0 (field_in field.now))))
        ≡ None)
        (λ r. IsRefused (row_at row) (parts_within 0 (field_in field.now)) r.at r.operand.now
        r.fault) }
    ensures within { IfSome result (λ r. r.at ≤ length field.now) }
{
    let mut given = GivenOperands::none(row);
    let mut at = 0;
    let mut rest = field;
    'operands: loop {
        let (operand, more) = next_operand(rest);
        if let Err(fault) = given.take(operand) {
            return Some(Refused {
                at,
                operand,
                fault,
                expected: expected(&given),
            });
        }
        rest = more?;
        at += operand.len() + 1;
    }
}

/// Returns the part of an operand that is wrong: a length and an offset.
pub fn part_of(row: Row, fault: Fault, operand: &[u8]) -> (usize, usize)
    ensures part { result ≡ part_of (row_at row) fault operand.now }
    ensures within { result.0 ≤ length operand.now }
{
    let (key, text) = split_once(operand, b'=');
    match text {
        Some(text) if takes(row, key) && !matches!(fault, Fault::Repeated) => {
            (key.len() + 1, text.len())
        }
        _ => (0, operand.len()),
    }
}

// Returns whether one of some keywords has a key.
fn have(keywords: &[Keyword], key: &[u8]) -> bool
    ensures { result ≡ list_any (λ k. bytes_eq (key_text k.key) key.now) keywords.now }
{
    for keyword in keywords {
        if keyword.key.is(key) {
            return true;
        }
    }
    false
}

/// Returns whether a row takes a key.
pub fn takes(row: Row, key: &[u8]) -> bool
    ensures { result ≡ list_any (λ k. bytes_eq k.key key.now) (row_at row).keywords }
{
    have(row.keywords(), key)
}
