//! The operands of a statement, read by its row of the table.

ghost use Rattle.std.specs.Prelude.{◌≡◌, ◌<◌, [], ℕ, List, length, map, true, false, find, position, bytes_eq, flat_map, None, Some, MatchOption, MatchResult, IfSome};
ghost use Rattle.mvs_model.specs.Reading.{parts_within, operands_in, has_key, key_of, text_of, first_of, operand_checks, with_left};
ghost use Rattle.job_script.specs.Kinds.{as_kind};
ghost use Rattle.job_script.specs.Rows.{key_text, row_at, as_keyword};
ghost use Rattle.job_script.specs.Places.{HasKeyword};

use crate::keys::{KEYS, Key};
use crate::kinds::check;
use crate::rows::{Keyword, Row};
use crate::split_once::{next_operand, split_once};
use mvs_model::line::Fault;

/// The operands of a statement: the texts of those that were read so far, in the places that the row and the keys have for them.
#[derive(Drop)]
pub struct GivenOperands<'a> {
    /// What the statement takes.
    pub row: Row,
    /// The keyword operands that it takes.
    pub keywords: &'static [Keyword],
    /// Returns whether a keyword was given, after which no positional operand is allowed.
    pub keyed: bool,
    /// How many positional operands were read.
    pub count: usize,
    pub places: [Option<&'a [u8]>; 3],
    pub texts: [Option<&'a [u8]>; KEYS],
}

// Returns the position of a keyword in its table, by the text before the equals sign.
fn place(keywords: &[Keyword], text: &[u8]) -> Option<usize>
    ensures place { result ≡ position (λ k. bytes_eq (key_text k.key) text.now) keywords.now }
    ensures within { IfSome result (λ i. i < length keywords.now) }
{
    keywords.iter().position(|keyword| keyword.key.is(text))
}

// Returns the keyword of a table that has this key.
fn keyword_at(keywords: &'static [Keyword], key: &[u8]) -> Option<&'static Keyword>
    ensures { MatchOption result
        (find (λ k. bytes_eq k.key key.now) (map as_keyword keywords.now) ≡ None)
        (λ k. HasKeyword (map as_keyword keywords.now) key.now k.now.key (as_kind k.now.kind)) }
{
    let place = place(keywords, key)?;
    Some(&keywords[place])
}

impl<'a> GivenOperands<'a> {
    ghost use Rattle.job_script.specs.GivenOperands.{IsGiven, IsRead, IsPlaced, Takes, by_place, option_now, field_now};
    ghost use Rattle.job_script.specs.Parted.{field_in};
    ghost use Rattle.mvs_model.specs.ReadingLaws.{IsTaken};
    ghost use Rattle.mvs_model.specs.declared.line.Fault.TheVariants.{MissingOperand};

    /// Makes the operands of a row, of which none is given yet.
    pub fn none(row: Row) -> GivenOperands<'a>
        ensures given { IsGiven result [] }
        ensures row { result.row ≡ row }
    {
        GivenOperands {
            row,
            keywords: row.keywords(),
            keyed: false,
            count: 0,
            places: [None; 3],
            texts: [None; KEYS],
        }
    }

    // Takes a positional operand.
    fn take_positional(&mut self, operand: &'a [u8]) -> Result<(), Fault>
        requires { has_key operand.now ≡ false }
        ensures { Takes self.old self.new operand.now result }
    {
        if self.keyed {
            return Err(Fault::InvalidOperand);
        }
        let Some(positional) = self.row.positional().get(self.count) else {
            return Err(Fault::InvalidOperand);
        };
        check(&positional.kind, operand, false)?;
        self.places[self.count] = Some(operand);
        self.count += 1;
        Ok(())
    }

    // Takes an operand with a key.
    fn take_keyword(&mut self, key: &[u8], text: &'a [u8]) -> Result<(), Fault>
        ensures { (operand : List ℕ) → has_key operand ≡ true → key_of operand ≡ key.now
            → text_of operand ≡ text.now → Takes self.old self.new operand result }
    {
        let Some(keyword) = keyword_at(self.keywords, key) else {
            return Err(Fault::InvalidOperand);
        };
        let place = keyword.key.index();
        check(&keyword.kind, text, self.texts[place].is_some())?;
        self.texts[place] = Some(text);
        self.keyed = true;
        Ok(())
    }

    /// Takes an operand, or answers what is wrong with it.
    pub fn take(&mut self, operand: &'a [u8]) -> Result<(), Fault>
        ensures { Takes self.old self.new operand.now result }
    {
        let (key, text) = split_once(operand, b'=');
        match text {
            None => self.take_positional(operand),
            Some(text) => self.take_keyword(key, text),
        }
    }

    /// Takes the operands of the field that a text starts with from left to right, or answers what is wrong with the first that is not taken.
    pub fn take_all(&mut self, field: &'a [u8]) -> Result<(), Fault>
        requires { IsGiven self.old [] }
        ensures { MatchResult result
            (λ _. IsGiven self.new (parts_within 0 (field_in field.now))
            × (self.new.row ≡ self.old.row))
            (λ fault. first_of
            (flat_map (operand_checks (row_at self.old.row))
            (with_left (parts_within 0 (field_in field.now)))) ≡ Some fault) }
    {
        let mut rest = field;
        'operands: loop {
            let (operand, more) = next_operand(rest);
            self.take(operand)?;
            match more {
                None => return Ok(()),
                Some(next) => rest = next,
            }
        }
    }

    /// Accepts the operands of a field, if there is one.
    pub fn take_field(&mut self, field: Option<&'a [u8]>) -> Result<(), Fault>
        requires { IsGiven self.old [] }
        ensures { MatchResult result
            (λ _. IsGiven self.new (operands_in (field_now field.entry))
            × (self.new.row ≡ self.old.row))
            (λ fault. first_of
            (flat_map (operand_checks (row_at self.old.row))
            (with_left (operands_in (field_now field.entry)))) ≡ Some fault) }
    {
        match field {
            None => Ok(()),
            Some(field) => self.take_all(field),
        }
    }

    /// Returns the text under a key.
    pub fn text(&self, key: Key) -> Option<&'a [u8]>
        requires { IsRead self.now }
        ensures text { option_now result ≡ (by_place self.now).under (key_text key) }
        ensures said { MatchOption result ((by_place self.now).under (key_text key) ≡ None)
            (λ text. (by_place self.now).under (key_text key) ≡ Some text.now) }
        ensures taken { IfSome result
            (λ text. IsTaken (row_at self.now.row) (key_text key) text.now) }
    {
        self.texts[key.index()]
    }

    /// Returns the positional operand at a place, counted from 0.
    pub fn positional(&self, place: usize) -> Option<&'a [u8]>
        requires read { IsRead self.now }
        requires place { place < 3 }
        ensures text { option_now result ≡ (by_place self.now).at place }
        ensures said { MatchOption result ((by_place self.now).at place ≡ None)
            (λ text. (by_place self.now).at place ≡ Some text.now) }
        ensures taken { IfSome result (λ text. IsPlaced (row_at self.now.row) place text.now) }
    {
        self.places[place]
    }
    /// Returns the text under a key that has to be there.
    pub fn required(&self, key: Key) -> Result<&'a [u8], Fault>
        requires { IsRead self.now }
        ensures { MatchResult result
            (λ text. (by_place self.now).under (key_text key) ≡ Some text.now)
            (λ fault. ((by_place self.now).under (key_text key) ≡ None)
            × (fault ≡ MissingOperand)) }
    {
        self.text(key).ok_or(Fault::MissingOperand)
    }

    /// Returns the positional operand that has to be at a place, counted from 0.
    pub fn required_at(&self, place: usize) -> Result<&'a [u8], Fault>
        requires read { IsRead self.now }
        requires place { place < 3 }
        ensures { MatchResult result
            (λ text. (by_place self.now).at place ≡ Some text.now)
            (λ fault. ((by_place self.now).at place ≡ None) × (fault ≡ MissingOperand)) }
    {
        self.positional(place).ok_or(Fault::MissingOperand)
    }
}
