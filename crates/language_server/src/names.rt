//! Names of areas, tasks and pools: where they are, and which lines set them.

ghost use Rattle.std.specs.Prelude.{◌≡◌, ◌≤◌, ◌<◌, ◌+◌, ◌++◌, ◌∷◌, ◌==◌, [], IfOk, MatchOption, OnOk, flat_map, false, length, position, true};
ghost use Rattle.std.specs.List.{after_first, before_first, list_any, prefix_len, slice_split};
ghost use Rattle.mvs_model.specs.Lines.{lines_of};
ghost use Rattle.mvs_model.specs.Reading.{form_in, parts_within};
ghost use Rattle.job_script.specs.Parted.{field_in};
ghost use Rattle.language_server.specs.Names.{after_word, begins_statement, ends_name, first_word, has_addresses, has_keys, is_region, key_in, kind_of, kind_of_key, line_names, name_in, names_by, names_of, operand_names, operand_role, operands_at, sets, step_after, task_role, value_names};
ghost use Rattle.language_server.specs.Words.{line_piece};

use crate::span::Span;
use job_script::addresses::{is_name, is_name_byte};
use job_script::split_once::{next_operand, split_once};
use std::alloc::{AllocError, Global};
use std::marker::Model;

/// What a name is the name of.
#[derive(Clone, Copy, Debug, PartialEq, Eq)]
pub enum NameKind {
    Area,
    Task,
    Pool,
}

/// A name in a document.
#[derive(Clone, Copy, Debug)]
pub struct Occurrence {
    pub kind: NameKind,
    pub span: Span,
    /// The number of the lines before its line.
    pub line: usize,
    /// The number of the steps that begin up to its line.
    pub step: usize,
    /// Whether the line is to set it, or to begin the task or the pool.
    pub is_set: bool,
    /// Whether it is the task of a REGION statement.
    pub is_step: bool,
}

/// Some bytes of a text, by the place of the first.
#[derive(Drop)]
pub struct Piece<'a> {
    pub at: usize,
    pub bytes: &'a [u8],
}

impl<'a> Model for Piece<'a> {
    ghost use Rattle.language_server.specs.Names.{PieceValue};

    ghost Value = { PieceValue };

    ghost view = { λ p. record { at = p.at; bytes = p.bytes.now } };
}

/// The operation and the form of a statement, its line, and its step.
#[derive(Drop)]
struct Statement<'a> {
    operation: &'a [u8],
    form: &'a [u8],
    line: usize,
    step: usize,
}

impl<'a> Model for Statement<'a> {
    ghost use Rattle.language_server.specs.Names.{StatementValue};

    ghost Value = { StatementValue };

    ghost view = { λ s. record {
      operation = s.operation.now;
      form = s.form.now;
      line = s.line;
      step = s.step;
    } };
}

// ---- the words of a line

// Returns whether a line is a statement.
pub(crate) fn begins_statement(line: &[u8]) -> bool
    ensures { result ≡ begins_statement line.now }
{
    match line.first() {
        Some(byte) => *byte != b' ' && *byte != b'*',
        None => false,
    }
}

// Returns whether a byte is a blank.
fn is_blank(byte: u8) -> bool
    ensures { result ≡ (byte == 32) }
{
    byte == b' '
}

// Returns the number of the blanks with which a text begins.
#[tactic(auto, using(crate::proofs::Naming::blanks_more, crate::proofs::Naming::blanks_end))]
fn blanks(text: &[u8]) -> usize
    ensures count { result ≡ prefix_len (λ b. b == 32) text.now }
    ensures within { result ≤ length text.now }
{
    for (at, byte) in text.iter().enumerate() {
        if !is_blank(*byte) {
            return at;
        }
    }
    text.len()
}

// ---- cuts

// Returns the text before the first of these bytes, and the text after it, if there is one.
fn split_byte(text: &[u8], byte: u8) -> (&[u8], Option<&[u8]>)
    ensures before { result.0.now ≡ before_first (λ b. b == byte) text.now }
    ensures after { MatchOption result.1
        ((list_any (λ b. b == byte) text.now ≡ false)
        × (after_first (λ b. b == byte) text.now ≡ []))
        (λ rest. (list_any (λ b. b == byte) text.now ≡ true)
        × (rest.now ≡ after_first (λ b. b == byte) text.now)) }
    ensures whole { MatchOption result.1 (length result.0.now ≤ length text.now)
        (λ rest. length result.0.now + 1 + length rest.now ≡ length text.now) }
{
    split_once(text, byte)
}

/// Returns the text before the first blank, and the text after it.
pub(crate) fn split_blank(text: &[u8]) -> (&[u8], &[u8])
    ensures before { result.0.now ≡ before_first (λ b. b == 32) text.now }
    ensures after { result.1.now ≡ after_first (λ b. b == 32) text.now }
{
    match split_byte(text, b' ') {
        (word, Some(rest)) => (word, rest),
        (word, None) => (word, &[]),
    }
}

/// Returns the first line of a text, and the text after it, if there is more.
pub(crate) fn split_line(text: &[u8]) -> (&[u8], Option<&[u8]>)
    requires { 0 < length text.now }
    ensures lines { MatchOption result.1 (lines_of text.now ≡ result.0.now ∷ [])
        (λ rest. lines_of text.now ≡ result.0.now ∷ lines_of rest.now) }
    ensures whole { MatchOption result.1 (length result.0.now ≤ length text.now)
        (λ rest. length result.0.now + 1 + length rest.now ≡ length text.now) }
{
    split_byte(text, b'\n')
}

/// Returns the first operand of a field, and the text after it, if there is more.
pub(crate) fn split_operand(text: &[u8]) -> (&[u8], Option<&[u8]>)
    ensures parts { MatchOption result.1 (parts_within 0 (field_in text.now) ≡ result.0.now ∷ [])
        (λ rest. parts_within 0 (field_in text.now)
        ≡ result.0.now ∷ parts_within 0 (field_in rest.now)) }
    ensures whole { MatchOption result.1 (length result.0.now ≤ length text.now)
        (λ rest. length result.0.now + 1 + length rest.now ≡ length text.now) }
{
    next_operand(text)
}

/// Returns whether a text has bytes.
pub(crate) fn has_bytes(text: &[u8]) -> bool
    ensures some { result ≡ true → 0 < length text.now }
    ensures none { result ≡ false → text.now ≡ [] }
{
    match text {
        [] => false,
        [_, ..] => true,
    }
}

impl<'a> Piece<'a> {
    /// Returns the word with which the piece begins.
    pub(crate) fn first_word(&self) -> &'a [u8]
        ensures word { result.now ≡ first_word self.now }
        ensures within { length result.now ≤ length self.now.bytes }
    {
        let (word, _) = split_once(self.bytes, b' ');
        word
    }

    /// Returns the piece from its second word on.
    pub(crate) fn after_word(&self) -> Piece<'a>
        requires room { self.now.at + length self.now.bytes ≤ 1048576 }
        ensures rest { result ≡ after_word self.now }
        ensures room { result.at + length result.bytes ≤ 1048576 }
    {
        let len = self.first_word().len();
        let rest = &self.bytes[len..];
        let count = blanks(rest);
        Piece {
            at: self.at + len + count,
            bytes: &rest[count..],
        }
    }
}

/// Returns the first operand of a field.
pub(crate) fn form_of<'a>(field: &'a [u8]) -> &'a [u8]
    ensures { result.now ≡ form_in [] (parts_within 0 (field_in field.now)) }
{
    match next_operand(field) {
        (form, Some(_)) => form,
        (form, None) => form,
    }
}

/// Returns the key of an operand, which is empty if it has none.
pub(crate) fn key_in(operand: &[u8]) -> &[u8]
    ensures key { result.now ≡ key_in operand.now }
    ensures within { length result.now ≤ length operand.now }
{
    match split_byte(operand, b'=') {
        (key, Some(_)) => key,
        (_, None) => &[],
    }
}

// ---- what a name is the name of

// Returns what the names after a key are.
fn kind_of_key(key: &[u8]) -> Option<NameKind>
    ensures { result ≡ kind_of_key key.now }
{
    if key == b"A".as_slice() || key == b"ADDR".as_slice() || key == b"CELL".as_slice() {
        Some(NameKind::Area)
    } else if key == b"CPID".as_slice() {
        Some(NameKind::Pool)
    } else if key == b"TASK".as_slice() {
        Some(NameKind::Task)
    } else {
        None
    }
}

// Returns whether the operands of an operation have names after keys.
fn has_keys(operation: &[u8]) -> bool
    ensures { result ≡ has_keys operation.now }
{
    operation == b"GETMAIN".as_slice()
        || operation == b"FREEMAIN".as_slice()
        || operation == b"STORAGE".as_slice()
        || operation == b"CPOOL".as_slice()
        || operation == b"ATTACH".as_slice()
}

// Returns whether the operands of an operation are addresses without a key.
fn has_addresses(operation: &[u8]) -> bool
    ensures { result ≡ has_addresses operation.now }
{
    operation == b"PUT".as_slice()
        || operation == b"SHOW".as_slice()
        || operation == b"MOVE".as_slice()
        || operation == b"WHERE".as_slice()
}

/// Returns what the names in an operand are, by its operation and its key, which is empty if it has none.
pub fn kind_of(operation: &[u8], key: &[u8]) -> Option<NameKind>
    ensures { result ≡ kind_of operation.now key.now }
{
    if has_keys(operation) {
        kind_of_key(key)
    } else if has_addresses(operation) && key.is_empty() {
        Some(NameKind::Area)
    } else {
        None
    }
}

// Returns whether an operation with a form sets areas.
fn sets_area(operation: &[u8], form: &[u8]) -> bool
    ensures { result ≡ sets operation.now form.now NameKind.Area }
{
    operation == b"GETMAIN".as_slice()
        || operation == b"STORAGE".as_slice() && form == b"OBTAIN".as_slice()
        || operation == b"CPOOL".as_slice() && form == b"GET".as_slice()
}

// Returns whether an operation with a form sets the names of a kind in its operands.
fn sets(operation: &[u8], form: &[u8], kind: NameKind) -> bool
    ensures { result ≡ sets operation.now form.now kind }
{
    match kind {
        NameKind::Task => operation == b"ATTACH".as_slice(),
        NameKind::Pool => operation == b"CPOOL".as_slice() && form == b"BUILD".as_slice(),
        NameKind::Area => sets_area(operation, form),
    }
}

/// Returns whether an operation begins a step.
pub(crate) fn is_region(operation: &[u8]) -> bool
    ensures { result ≡ is_region operation.now }
{
    operation == b"REGION".as_slice()
}

// ---- the names of a line

// Returns whether a byte is between names.
fn ends_name(byte: u8) -> bool
    ensures { result ≡ ends_name byte }
{
    !(is_name_byte(byte) || byte == b'\'')
}

// Returns the index of the first byte that is between names.
fn name_end(text: &[u8]) -> Option<usize>
    ensures { result ≡ position ends_name text.now }
{
    text.iter().position(|byte| ends_name(*byte))
}

// Returns the text before the first byte that is between names, and the text after it, if there is one.
fn split_name(text: &[u8]) -> (&[u8], Option<&[u8]>)
    ensures parts { MatchOption result.1 (slice_split ends_name text.now ≡ result.0.now ∷ [])
        (λ rest. slice_split ends_name text.now ≡ result.0.now ∷ slice_split ends_name rest.now) }
    ensures whole { MatchOption result.1 (length result.0.now ≡ length text.now)
        (λ rest. length result.0.now + 1 + length rest.now ≡ length text.now) }
{
    match name_end(text) {
        None => (text, None),
        Some(end) => (&text[..end], Some(&text[end + 1..])),
    }
}

// Adds the name that a piece is, if it is one.
fn push_name(
    found: &mut Vec<Occurrence>,
    role: Occurrence,
    at: usize,
    bytes: &[u8],
) -> Result<(), AllocError>
    requires room { at + length bytes.now ≤ 1048576 }
    ensures { OnOk result
        (found.new.items ≡ found.old.items ++ name_in role (record { at = at; bytes = bytes.now })) }
{
    if is_name(bytes) {
        found.push(Occurrence {
            kind: role.kind,
            span: Span {
                start: at,
                end: at + bytes.len(),
            },
            line: role.line,
            step: role.step,
            is_set: role.is_set,
            is_step: role.is_step,
        })?;
    }
    Ok(())
}

// Adds the names in a value.
fn add_value(
    found: &mut Vec<Occurrence>,
    role: Occurrence,
    at: usize,
    value: &[u8],
) -> Result<(), AllocError>
    requires room { at + length value.now ≤ 1048576 }
    ensures { OnOk result (found.new.items ≡ found.old.items
        ++ value_names role (record { at = at; bytes = value.now })) }
{
    let mut place = at;
    let mut rest = value;
    'pieces: loop {
        let (piece, more) = split_name(rest);
        push_name(found, role, place, piece)?;
        match more {
            None => return Ok(()),
            Some(next) => {
                place += piece.len() + 1;
                rest = next;
            }
        }
    }
}

impl Statement<'_> {
    // Returns what the names of a kind in the operands are, but for their places.
    fn role(&self, kind: NameKind) -> Occurrence
        ensures { result ≡ operand_role self.now kind }
    {
        Occurrence {
            kind,
            span: Span { start: 0, end: 0 },
            line: self.line,
            step: self.step,
            is_set: sets(self.operation, self.form, kind),
            is_step: false,
        }
    }

    // Returns what the task is, but for its place.
    fn task_role(&self) -> Occurrence
        ensures { result ≡ task_role self.now }
    {
        let is_region = is_region(self.operation);
        Occurrence {
            kind: NameKind::Task,
            span: Span { start: 0, end: 0 },
            line: self.line,
            step: self.step,
            is_set: is_region,
            is_step: is_region,
        }
    }

    // Adds the names in a value after a key.
    fn add_keyed(
        &self,
        found: &mut Vec<Occurrence>,
        key: &[u8],
        at: usize,
        value: &[u8],
    ) -> Result<(), AllocError>
        requires room { at + length value.now ≤ 1048576 }
        ensures { OnOk result (found.new.items ≡ found.old.items
            ++ names_by (kind_of self.now.operation key.now) self.now (record { at = at; bytes = value.now })) }
    {
        match kind_of(self.operation, key) {
            Some(kind) => add_value(found, self.role(kind), at, value),
            None => Ok(()),
        }
    }

    // Adds the names in an operand.
    fn add_operand(
        &self,
        found: &mut Vec<Occurrence>,
        at: usize,
        operand: &[u8],
    ) -> Result<(), AllocError>
        requires room { at + length operand.now ≤ 1048576 }
        ensures { OnOk result (found.new.items ≡ found.old.items
            ++ operand_names self.now (record { at = at; bytes = operand.now })) }
    {
        let (key, value) = split_byte(operand, b'=');
        match value {
            Some(value) => self.add_keyed(found, key, at + key.len() + 1, value),
            None => self.add_keyed(found, b"", at, operand),
        }
    }

    // Adds the names in the operands of a field.
    fn add_field(&self, found: &mut Vec<Occurrence>, field: &Piece<'_>) -> Result<(), AllocError>
        requires room { field.now.at + length field.now.bytes ≤ 1048576 }
        ensures { OnOk result (found.new.items ≡ found.old.items
            ++ flat_map (operand_names self.now) (operands_at field.now)) }
    {
        let mut place = field.at;
        let mut rest = field.bytes;
        'operands: loop {
            let (operand, more) = split_operand(rest);
            self.add_operand(found, place, operand)?;
            match more {
                None => return Ok(()),
                Some(next) => {
                    place += operand.len() + 1;
                    rest = next;
                }
            }
        }
    }
}

// Adds the names of a line with a number, in a step.
fn add_line(
    found: &mut Vec<Occurrence>,
    number: usize,
    step: usize,
    line: &Piece<'_>,
) -> Result<(), AllocError>
    requires room { line.now.at + length line.now.bytes ≤ 1048576 }
    ensures { OnOk result
        (found.new.items ≡ found.old.items ++ line_names number step line.now) }
{
    if !begins_statement(line.bytes) {
        return Ok(());
    }
    let rest = line.after_word();
    let field = rest.after_word();
    let statement = Statement {
        operation: rest.first_word(),
        form: form_of(field.bytes),
        line: number,
        step,
    };
    push_name(found, statement.task_role(), line.at, line.first_word())?;
    statement.add_field(found, &field)
}

/// Returns the names of a line, with their places in it.
pub(crate) fn line_names(alloc: Global, line: &[u8]) -> Result<Vec<Occurrence>, AllocError>
    requires { length line.now ≤ 1048576 }
    ensures { IfOk result (λ found. found.items ≡ line_names 0 0 (line_piece line.now)) }
{
    let mut found = Vec::new(alloc);
    add_line(&mut found, 0, 0, &Piece { at: 0, bytes: line })?;
    Ok(found)
}

// Returns the number of the steps that begin up to a line.
fn step_after(step: usize, line: &Piece<'_>) -> usize
    requires room { line.now.at + length line.now.bytes ≤ 1048576 }
    requires steps { step ≤ 1048576 }
    ensures step { result ≡ step_after step line.now }
    ensures more { result ≤ step + 1 }
{
    if begins_statement(line.bytes) && is_region(line.after_word().first_word()) {
        step + 1
    } else {
        step
    }
}

/// Returns the names of a text, in the order of their places.
pub fn names_of(alloc: Global, text: &[u8]) -> Result<Vec<Occurrence>, AllocError>
    requires { length text.now ≤ 1048576 }
    ensures { IfOk result (λ found. found.items ≡ names_of text.now) }
{
    let mut found = Vec::new(alloc);
    let mut number = 0;
    let mut step = 0;
    let mut place = 0;
    let mut rest = text;
    'lines: while has_bytes(rest) {
        let (bytes, more) = split_line(rest);
        let line = Piece { at: place, bytes };
        step = step_after(step, &line);
        add_line(&mut found, number, step, &line)?;
        number += 1;
        match more {
            Some(next) => {
                place += bytes.len() + 1;
                rest = next;
            }
            None => return Ok(found),
        }
    }
    Ok(found)
}
