//! Completion: the words that may be written at a place, by the table of statements.

ghost use Rattle.std.specs.Prelude.{◌≡◌, ◌≤◌, ◌<◌, ◌+◌, ◌++◌, ◌∷◌, [], IfOk, OnOk, Some, length, map, option_map, position, reverse, slice_get};
ghost use Rattle.job_script.specs.Kinds.{as_kind};
ghost use Rattle.job_script.specs.Operations.{operation_text};
ghost use Rattle.job_script.specs.Rows.{as_keyword, as_positional, row_at};
ghost use Rattle.language_server.specs.Hovers.{spot_field, spot_operation};
ghost use Rattle.language_server.specs.Proposals.{completion_at, completion_of, context_in, context_of, field_by, has_names, is_after_key, is_before_word, is_in_form, keyed_proposal, keyed_proposals, known_proposal, known_proposals, name_proposal, name_proposals, names_if, operand_by, operand_proposals, operands_before, positional_at, positional_proposals, proposals_in, row_proposals, spot_word, value_proposals, word_before, word_end_at};

use crate::document::Document;
use crate::names::{NameKind, Occurrence, Piece, key_in, kind_of, names_of, split_operand};
use crate::parts::{Parts, parts_of};
use crate::plain_text::push_shown;
use crate::proposals::{Proposal, ProposalKind, Proposals};
use crate::references::kind_number;
use crate::span::Span;
use crate::state::{Moment, moment_before};
use crate::subject::{Spot, field_form, form_span, operand_at};
use crate::words::length_to;
use job_script::kinds::Kind;
use job_script::operations::{Operation, read_operation};
use job_script::rows::{Keyword, Positional, Row};
use std::alloc::{AllocError, Global};
use std::marker::Model;

/// What may be written at a place: words, and the bytes that one of them replaces.
#[derive(Drop)]
pub struct Completion {
    span: Span,
    proposals: Proposals,
}

impl Model for Completion {
    ghost use Rattle.language_server.specs.Proposals.{CompletionValue};

    ghost Value = { CompletionValue };

    ghost view = { λ c. record { span = c.span; proposals = c.proposals } };
}

impl Completion {
    /// Returns the bytes that a word replaces.
    pub fn span(&self) -> Span
        ensures { result ≡ self.now.span }
    {
        self.span
    }

    /// Returns the words.
    pub fn proposals(&self) -> &[Proposal]
        ensures { result.now ≡ self.now.proposals }
    {
        &self.proposals.found
    }
}

// What may be written at a column of a line: a task, an operation, operands, or only a remark.
#[derive(Clone, Copy, Debug)]
enum Context {
    Task,
    Operation,
    Operands,
    Remark,
}

// ---- what is replaced

// Returns whether a word begins after a byte.
fn is_before_word(byte: u8) -> bool
    ensures { result ≡ is_before_word byte }
{
    byte == b' ' || byte == b',' || byte == b'=' || byte == b'('
}

// Returns the number of the bytes of a text after the last one that is before a word.
fn bytes_after(text: &[u8]) -> Option<usize>
    ensures { result ≡ position is_before_word (reverse text.now) }
{
    text.iter().rev().position(|byte| is_before_word(*byte))
}

// Returns the word of a line that ends at a place of it.
fn word_end_at(line: &[u8], at: usize) -> Span
    requires { at ≤ length line.now }
    ensures { result ≡ word_end_at at line.now }
{
    let before = &line[..at];
    let count = length_to(bytes_after(before), before.len());
    Span {
        start: at.saturating_sub(count),
        end: at,
    }
}

// Returns the word of a line up to a column.
fn word_before(line: &[u8], column: usize) -> Span
    ensures { result ≡ word_before line.now column }
{
    word_end_at(line, column.min(line.len()))
}

// ---- where a place is

// Returns what may be written at a column of a statement.
fn context_in(parts: Parts, column: usize) -> Context
    ensures { result ≡ context_in parts column }
{
    if column <= parts.task.end {
        Context::Task
    } else if column <= parts.operation.end {
        Context::Operation
    } else if parts.field.touches(column) {
        Context::Operands
    } else {
        Context::Remark
    }
}

// Returns what may be written at a column of a line.
fn context_of(line: &[u8], column: usize) -> Context
    requires { length line.now ≤ 1048576 }
    ensures { result ≡ context_of line.now column }
{
    match parts_of(line) {
        Some(parts) => context_in(parts, column),
        None if column == 0 => Context::Task,
        None => Context::Remark,
    }
}

// Returns whether a column is in the form of an operation that has forms.
fn is_in_form(operation: Operation, field: &Piece<'_>, column: usize) -> bool
    requires room { field.now.at + length field.now.bytes ≤ 1048576 }
    ensures { result ≡ is_in_form (operation_text operation) field.now column }
{
    operation.takes_form() && form_span(field).touches(column)
}

// Returns whether a column is after the key of an operand and its equals sign.
fn is_after_key(operand: &Piece<'_>, column: usize) -> bool
    requires room { operand.now.at + length operand.now.bytes ≤ 1048576 }
    ensures { result ≡ is_after_key operand.now column }
{
    let key = key_in(operand.bytes);
    !key.is_empty() && operand.at + key.len() < column
}

// Returns the number of the operands of a field that end before a column.
fn operands_before(field: &Piece<'_>, column: usize) -> usize
    requires room { field.now.at + length field.now.bytes ≤ 1048576 }
    ensures { result ≡ operands_before field.now column }
{
    let mut count = 0;
    let mut place = field.at;
    let mut rest = field.bytes;
    'operands: loop {
        let (bytes, more) = split_operand(rest);
        count += usize::from(place + bytes.len() < column);
        match more {
            None => return count,
            Some(next) => {
                place += bytes.len() + 1;
                rest = next;
            }
        }
    }
}

// ---- what is proposed

// Returns whether an operand of a kind is a name, or has names in it.
fn has_names(kind: Kind) -> bool
    ensures { result ≡ has_names (as_kind kind) }
{
    match kind {
        Kind::Name | Kind::Address | Kind::DistinctNames(_) | Kind::Addresses(_) => true,
        Kind::Number(..)
        | Kind::HexByte
        | Kind::Word(_)
        | Kind::Bytes(_)
        | Kind::Pair(..)
        | Kind::NumberOrPair(..)
        | Kind::Numbers(..)
        | Kind::DistinctNumbers(..) => false,
    }
}

// Returns a positional operand of a row.
fn positional_of(row: Row, place: usize) -> Option<Positional>
    ensures { option_map as_positional result ≡ slice_get (row_at row).positional place }
{
    row.positional().get(place).copied()
}

impl Document {
    // Adds a name, and the line that sets it.
    fn push_name_proposal(
        &self,
        proposals: &mut Proposals,
        name: &Occurrence,
    ) -> Result<(), AllocError>
        requires { name.now.line < 1048577 }
        ensures { OnOk result
            (proposals.new ≡ proposals.old ++ name_proposal self.now name.now ∷ []) }
    {
        let mut text = String::new(proposals.alloc);
        push_shown(&mut text, name.span.of(&self.text))?;
        let mut detail = String::from_str(proposals.alloc, "line ")?;
        let number = name.line + 1;
        write!(detail, "{number}")?;
        proposals.push(ProposalKind::Name, text, detail)
    }

    // Adds a name, if it is of a kind, and known at a moment.
    fn push_if_known(
        &self,
        proposals: &mut Proposals,
        names: &[Occurrence],
        moment: Moment,
        kind: NameKind,
        name: &Occurrence,
    ) -> Result<(), AllocError>
        requires { moment.before ≤ 1048576 }
        ensures { OnOk result (proposals.new
            ≡ proposals.old ++ known_proposal self.now names.now moment kind name.now) }
    {
        if kind_number(kind) == kind_number(name.kind) && self.is_known(names, moment, name) {
            self.push_name_proposal(proposals, name)
        } else {
            Ok(())
        }
    }

    // Adds the names of a kind that are known at a moment.
    fn push_known(
        &self,
        proposals: &mut Proposals,
        names: &[Occurrence],
        moment: Moment,
        kind: NameKind,
    ) -> Result<(), AllocError>
        requires { moment.before ≤ 1048576 }
        ensures { OnOk result (proposals.new
            ≡ proposals.old ++ known_proposals self.now names.now moment kind) }
    {
        for name in names {
            self.push_if_known(proposals, names, moment, kind, name)?;
        }
        Ok(())
    }

    // Adds the names of a kind that are known before a line.
    fn push_names(
        &self,
        proposals: &mut Proposals,
        line: usize,
        kind: NameKind,
    ) -> Result<(), AllocError>
        requires { line ≤ 1048576 }
        ensures { OnOk result
            (proposals.new ≡ proposals.old ++ name_proposals self.now line kind) }
    {
        let names = names_of(proposals.alloc, &self.text)?;
        let moment = moment_before(&names, line);
        self.push_known(proposals, &names, moment, kind)
    }

    // Adds the names that an operand may have, if it is one with names.
    fn push_names_if(
        &self,
        proposals: &mut Proposals,
        line: usize,
        has_names: bool,
        kind: Option<NameKind>,
    ) -> Result<(), AllocError>
        requires { line ≤ 1048576 }
        ensures { OnOk result
            (proposals.new ≡ proposals.old ++ names_if self.now line has_names kind) }
    {
        if !has_names {
            return Ok(());
        }
        match kind {
            Some(kind) => self.push_names(proposals, line, kind),
            None => Ok(()),
        }
    }

    // Adds what an operand of a kind may be, by its operation and its key.
    fn push_values(
        &self,
        proposals: &mut Proposals,
        line: usize,
        operation: Operation,
        key: &[u8],
        kind: Kind,
    ) -> Result<(), AllocError>
        requires { line ≤ 1048576 }
        ensures { OnOk result (proposals.new ≡ proposals.old
            ++ value_proposals self.now line (operation_text operation) key.now (as_kind kind)) }
    {
        proposals.push_words_of(kind)?;
        let names = kind_of(operation.text().as_bytes(), key);
        self.push_names_if(proposals, line, has_names(kind), names)
    }

    // Adds what a positional operand may be, if there is one.
    fn push_positional(
        &self,
        proposals: &mut Proposals,
        line: usize,
        operation: Operation,
        positional: Option<Positional>,
    ) -> Result<(), AllocError>
        requires { line ≤ 1048576 }
        ensures { OnOk result (proposals.new ≡ proposals.old
            ++ positional_proposals self.now line (operation_text operation) (option_map as_positional positional)) }
    {
        match positional {
            Some(positional) => self.push_values(proposals, line, operation, b"", positional.kind),
            None => Ok(()),
        }
    }

    // Adds what the value of a keyword may be, if it has a key.
    fn push_keyed(
        &self,
        proposals: &mut Proposals,
        line: usize,
        operation: Operation,
        key: &[u8],
        keyword: Keyword,
    ) -> Result<(), AllocError>
        requires { line ≤ 1048576 }
        ensures { OnOk result (proposals.new ≡ proposals.old
            ++ keyed_proposal self.now line (operation_text operation) key.now (as_keyword keyword)) }
    {
        if keyword.key.text().as_bytes() == key {
            self.push_values(proposals, line, operation, key, keyword.kind)
        } else {
            Ok(())
        }
    }

    // Adds what the value after a key may be.
    fn push_all_keyed(
        &self,
        proposals: &mut Proposals,
        line: usize,
        operation: Operation,
        key: &[u8],
        keywords: &[Keyword],
    ) -> Result<(), AllocError>
        requires { line ≤ 1048576 }
        ensures { OnOk result (proposals.new ≡ proposals.old
            ++ keyed_proposals self.now line (operation_text operation) key.now (map as_keyword keywords.now)) }
    {
        for keyword in keywords {
            self.push_keyed(proposals, line, operation, key, *keyword)?;
        }
        Ok(())
    }

    // Returns the positional operand that a row has at a place.
    fn positional_at(&self, spot: Spot, operation: Operation, row: Row) -> Option<Positional>
        ensures { option_map as_positional result
            ≡ positional_at (operation_text operation) (spot_field self.now spot) spot.column (row_at row) }
    {
        let forms = usize::from(operation.takes_form());
        let before = operands_before(&self.spot_field(spot), spot.column);
        positional_of(row, before.saturating_sub(forms))
    }

    // Adds what an operand may be that has no key yet.
    fn push_operand_proposals(
        &self,
        proposals: &mut Proposals,
        spot: Spot,
        operation: Operation,
        row: Row,
    ) -> Result<(), AllocError>
        requires { spot.line ≤ 1048576 }
        ensures { OnOk result (proposals.new ≡ proposals.old
            ++ operand_proposals self.now spot (operation_text operation) (row_at row)) }
    {
        let positional = self.positional_at(spot, operation, row);
        self.push_positional(proposals, spot.line, operation, positional)?;
        proposals.push_keywords(&self.spot_field(spot), spot.column, row.keywords())
    }

    // Adds what an operand may be, or the value of its key.
    fn push_operand_by(
        &self,
        proposals: &mut Proposals,
        spot: Spot,
        operation: Operation,
        row: Row,
        operand: &Piece<'_>,
    ) -> Result<(), AllocError>
        requires line { spot.line ≤ 1048576 }
        requires room { operand.now.at + length operand.now.bytes ≤ 1048576 }
        ensures { OnOk result (proposals.new ≡ proposals.old
            ++ operand_by self.now spot (operation_text operation) (row_at row) (Some operand.now)) }
    {
        if is_after_key(operand, spot.column) {
            let key = key_in(operand.bytes);
            self.push_all_keyed(proposals, spot.line, operation, key, row.keywords())
        } else {
            self.push_operand_proposals(proposals, spot, operation, row)
        }
    }

    // Adds what may be written in the operands that a row takes.
    fn push_row(
        &self,
        proposals: &mut Proposals,
        spot: Spot,
        operation: Operation,
        row: Row,
    ) -> Result<(), AllocError>
        requires { spot.line ≤ 1048576 }
        ensures { OnOk result (proposals.new ≡ proposals.old
            ++ row_proposals self.now spot (operation_text operation) (Some (row_at row))) }
    {
        match operand_at(&self.spot_field(spot), spot.column) {
            Some(operand) => self.push_operand_by(proposals, spot, operation, row, &operand),
            None => Ok(()),
        }
    }

    // Adds what may be written in the operands of an operation: its forms, or what the row of the form takes.
    fn push_field_by(
        &self,
        proposals: &mut Proposals,
        spot: Spot,
        operation: Operation,
    ) -> Result<(), AllocError>
        requires { spot.line ≤ 1048576 }
        ensures { OnOk result (proposals.new
            ≡ proposals.old ++ field_by self.now spot (operation_text operation)) }
    {
        let field = self.spot_field(spot);
        if is_in_form(operation, &field, spot.column) {
            return proposals.push_all_forms(operation);
        }
        match operation.row(field_form(&field)) {
            Some(row) => self.push_row(proposals, spot, operation, row),
            None => Ok(()),
        }
    }

    // Adds what may be written in the operands of the line of a place.
    fn push_field_proposals(&self, proposals: &mut Proposals, spot: Spot) -> Result<(), AllocError>
        requires { spot.line ≤ 1048576 }
        ensures { OnOk result (proposals.new
            ≡ proposals.old ++ field_by self.now spot (spot_operation self.now spot)) }
    {
        match read_operation(self.spot_operation(spot)) {
            Some(operation) => self.push_field_by(proposals, spot, operation),
            None => Ok(()),
        }
    }

    // Adds what may be written at a place.
    fn push_proposals(
        &self,
        proposals: &mut Proposals,
        spot: Spot,
        context: Context,
    ) -> Result<(), AllocError>
        requires { spot.line ≤ 1048576 }
        ensures { OnOk result
            (proposals.new ≡ proposals.old ++ proposals_in self.now spot context) }
    {
        match context {
            Context::Task => self.push_names(proposals, spot.line, NameKind::Task),
            Context::Operation => proposals.push_all_operations(),
            Context::Operands => self.push_field_proposals(proposals, spot),
            Context::Remark => Ok(()),
        }
    }

    // Returns the bytes that a word replaces at a place.
    fn spot_word(&self, spot: Spot) -> Span
        ensures { result ≡ spot_word self.now spot }
    {
        self.within_line(spot.line, word_before(self.line(spot.line), spot.column))
    }

    // Returns what may be written at a place of a line.
    fn completion_at(&self, alloc: Global, spot: Spot) -> Result<Completion, AllocError>
        requires { spot.line ≤ 1048576 }
        ensures { IfOk result (λ completion. completion ≡ completion_at self.now spot) }
    {
        let mut proposals = Proposals::new(alloc);
        let context = context_of(self.line(spot.line), spot.column);
        self.push_proposals(&mut proposals, spot, context)?;
        Ok(Completion {
            span: self.spot_word(spot),
            proposals,
        })
    }

    /// Returns what may be written at a place, and the bytes that it replaces.
    pub fn completion(&self, alloc: Global, place: usize) -> Result<Completion, AllocError>
        ensures { IfOk result (λ completion. completion ≡ completion_of self.now place) }
    {
        self.completion_at(alloc, self.spot_at(place))
    }
}
