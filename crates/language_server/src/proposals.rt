//! The words that completion proposes: operations, forms, keywords and values.

ghost use Rattle.std.specs.Prelude.{◌≡◌, ◌≤◌, ◌+◌, ◌++◌, ◌∷◌, [], IfOk, OnOk, length, map, string_bytes};
ghost use Rattle.mvs_model.specs.Reading.{row_of};
ghost use Rattle.job_script.specs.Kinds.{as_kind};
ghost use Rattle.job_script.specs.Operations.{operation_text};
ghost use Rattle.job_script.specs.Rows.{as_keyword};
ghost use Rattle.language_server.specs.Proposals.{form_proposal, is_given, is_same_key, key_proposals, keyword_proposal, keyword_proposals, operation_detail, operation_proposal, operations, word_proposal, words_of};
ghost use Rattle.language_server.specs.Syntax.{all_forms};

use crate::names::{Piece, key_in, split_operand};
use crate::subject::piece_span;
use crate::syntax::{keyword_text, operands_text, operands_with};
use job_script::kinds::Kind;
use job_script::operations::{OPERATIONS, Operation};
use job_script::rows::Keyword;
use std::alloc::{AllocError, Global};
use std::marker::Model;

/// What a proposal is.
#[derive(Clone, Copy, Debug, PartialEq, Eq)]
pub enum ProposalKind {
    Operation,
    Form,
    Keyword,
    Value,
    Name,
}

/// A word that is proposed, and what an editor shows beside it.
#[derive(Drop)]
pub struct Proposal {
    kind: ProposalKind,
    text: String,
    detail: String,
}

impl Model for Proposal {
    ghost use Rattle.std.specs.Prelude.{string_bytes};
    ghost use Rattle.language_server.specs.Proposals.{ProposalValue};

    ghost Value = { ProposalValue };

    ghost view = { λ p. record {
      kind = p.kind;
      text = string_bytes p.text;
      detail = string_bytes p.detail;
    } };
}

impl Proposal {
    /// Returns what it is.
    pub fn kind(&self) -> ProposalKind
        ensures { result ≡ self.now.kind }
    {
        self.kind
    }

    /// Returns the word.
    pub fn text(&self) -> &str
        ensures { result.now ≡ self.now.text }
    {
        &self.text
    }

    /// Returns what an editor shows beside it.
    pub fn detail(&self) -> &str
        ensures { result.now ≡ self.now.detail }
    {
        &self.detail
    }
}

// ---- keywords that are given

// Returns whether an operand has a key, and is not the one at a column.
fn is_same_key(operand: &Piece<'_>, column: usize, key: &[u8]) -> bool
    requires room { operand.now.at + length operand.now.bytes ≤ 1048576 }
    ensures { result ≡ is_same_key column key.now operand.now }
{
    key_in(operand.bytes) == key && !piece_span(operand).touches(column)
}

// Returns whether a key is given in another operand of a field than the one at a column.
fn is_given(field: &Piece<'_>, column: usize, key: &[u8]) -> bool
    requires room { field.now.at + length field.now.bytes ≤ 1048576 }
    ensures { result ≡ is_given field.now column key.now }
{
    let mut place = field.at;
    let mut rest = field.bytes;
    'operands: loop {
        let (bytes, more) = split_operand(rest);
        let operand = Piece { at: place, bytes };
        if is_same_key(&operand, column, key) {
            return true;
        }
        match more {
            None => return false,
            Some(next) => {
                place += bytes.len() + 1;
                rest = next;
            }
        }
    }
}

// ---- what is proposed

// Returns the operands of an operation, or the number of its forms.
fn operation_detail(alloc: Global, operation: Operation) -> Result<String, AllocError>
    ensures { IfOk result
        (λ text. string_bytes text ≡ operation_detail (operation_text operation) (row_of (operation_text operation) ([] ∷ []))) }
{
    match operation.row(b"") {
        Some(row) => operands_text(alloc, row),
        None => {
            let count = operation.forms().len();
            let mut text = String::new(alloc);
            write!(text, "{count}")?;
            text.push_str(" forms")?;
            Ok(text)
        }
    }
}

/// Words that are proposed.
#[derive(Drop)]
pub(crate) struct Proposals {
    pub(crate) alloc: Global,
    pub(crate) found: Vec<Proposal>,
}

impl Model for Proposals {
    ghost use Rattle.std.specs.Prelude.{List};
    ghost use Rattle.language_server.specs.Proposals.{ProposalValue};

    ghost Value = { List ProposalValue };

    ghost view = { λ p. p.found.items };
}

impl Proposals {
    /// Makes an empty list of them.
    pub(crate) fn new(alloc: Global) -> Proposals
        ensures { result ≡ [] }
    {
        Proposals {
            alloc,
            found: Vec::new(alloc),
        }
    }

    /// Adds a word.
    pub(crate) fn push(
        &mut self,
        kind: ProposalKind,
        text: String,
        detail: String,
    ) -> Result<(), AllocError>
        ensures { OnOk result (self.new ≡ self.old
            ++ record { kind = kind; text = string_bytes text; detail = string_bytes detail } ∷ []) }
    {
        self.found.push(Proposal { kind, text, detail })?;
        Ok(())
    }

    // Adds an operation.
    fn push_operation(&mut self, operation: Operation) -> Result<(), AllocError>
        ensures { OnOk result
            (self.new ≡ self.old ++ operation_proposal (operation_text operation) ∷ []) }
    {
        let text = String::from_str(self.alloc, operation.text())?;
        let detail = operation_detail(self.alloc, operation)?;
        self.push(ProposalKind::Operation, text, detail)
    }

    // Adds operations.
    fn push_operations(&mut self, operations: &[Operation]) -> Result<(), AllocError>
        ensures { OnOk result (self.new
            ≡ self.old ++ map operation_proposal (map operation_text operations.now)) }
    {
        for operation in operations {
            self.push_operation(*operation)?;
        }
        Ok(())
    }

    /// Adds all operations.
    pub(crate) fn push_all_operations(&mut self) -> Result<(), AllocError>
        ensures { OnOk result (self.new ≡ self.old ++ map operation_proposal operations) }
    {
        self.push_operations(&OPERATIONS)
    }

    // Adds a form of an operation.
    fn push_form(&mut self, operation: Operation, form: &str) -> Result<(), AllocError>
        ensures { OnOk result
            (self.new ≡ self.old ++ form_proposal (operation_text operation) form.now ∷ []) }
    {
        let text = String::from_str(self.alloc, form)?;
        let detail = operands_with(self.alloc, operation, form.as_bytes())?;
        self.push(ProposalKind::Form, text, detail)
    }

    // Adds forms of an operation.
    fn push_forms(&mut self, operation: Operation, forms: &[&str]) -> Result<(), AllocError>
        ensures { OnOk result (self.new ≡ self.old
            ++ map (form_proposal (operation_text operation)) (map (λ form. form.now) forms.now)) }
    {
        for form in forms {
            self.push_form(operation, form)?;
        }
        Ok(())
    }

    /// Adds all forms of an operation.
    pub(crate) fn push_all_forms(&mut self, operation: Operation) -> Result<(), AllocError>
        ensures { OnOk result (self.new ≡ self.old
            ++ map (form_proposal (operation_text operation)) (all_forms (operation_text operation))) }
    {
        self.push_forms(operation, operation.forms())
    }

    // Adds a keyword.
    fn push_keyword(&mut self, keyword: Keyword) -> Result<(), AllocError>
        ensures { OnOk result
            (self.new ≡ self.old ++ keyword_proposal (as_keyword keyword) ∷ []) }
    {
        let mut text = String::from_str(self.alloc, keyword.key.text())?;
        text.push_str("=")?;
        let detail = keyword_text(self.alloc, keyword)?;
        self.push(ProposalKind::Keyword, text, detail)
    }

    // Adds a keyword, if it is not given in another operand than the one at a column.
    fn push_missing(
        &mut self,
        field: &Piece<'_>,
        column: usize,
        keyword: Keyword,
    ) -> Result<(), AllocError>
        requires room { field.now.at + length field.now.bytes ≤ 1048576 }
        ensures { OnOk result
            (self.new ≡ self.old ++ key_proposals field.now column (as_keyword keyword)) }
    {
        if is_given(field, column, keyword.key.text().as_bytes()) {
            Ok(())
        } else {
            self.push_keyword(keyword)
        }
    }

    /// Adds the keywords that are not given yet.
    pub(crate) fn push_keywords(
        &mut self,
        field: &Piece<'_>,
        column: usize,
        keywords: &[Keyword],
    ) -> Result<(), AllocError>
        requires room { field.now.at + length field.now.bytes ≤ 1048576 }
        ensures { OnOk result (self.new
            ≡ self.old ++ keyword_proposals field.now column (map as_keyword keywords.now)) }
    {
        for keyword in keywords {
            self.push_missing(field, column, *keyword)?;
        }
        Ok(())
    }

    // Adds a word that is the value of an operand.
    fn push_word(&mut self, word: &str) -> Result<(), AllocError>
        ensures { OnOk result (self.new ≡ self.old ++ word_proposal word.now ∷ []) }
    {
        let text = String::from_str(self.alloc, word)?;
        self.push(ProposalKind::Value, text, String::new(self.alloc))
    }

    // Adds the words that an operand can have as its value.
    fn push_words(&mut self, words: &[&str]) -> Result<(), AllocError>
        ensures { OnOk result
            (self.new ≡ self.old ++ map word_proposal (map (λ word. word.now) words.now)) }
    {
        for word in words {
            self.push_word(word)?;
        }
        Ok(())
    }

    /// Adds the words that an operand of a kind can be.
    pub(crate) fn push_words_of(&mut self, kind: Kind) -> Result<(), AllocError>
        ensures { OnOk result
            (self.new ≡ self.old ++ map word_proposal (words_of (as_kind kind))) }
    {
        match kind {
            Kind::Word(words) => self.push_words(words.texts()),
            Kind::Number(..)
            | Kind::HexByte
            | Kind::Name
            | Kind::Address
            | Kind::Bytes(_)
            | Kind::Pair(..)
            | Kind::NumberOrPair(..)
            | Kind::Numbers(..)
            | Kind::DistinctNumbers(..)
            | Kind::DistinctNames(_)
            | Kind::Addresses(_) => Ok(()),
        }
    }
}
