//! Hover: the syntax of a statement, the meaning of a code or a rule, what a run printed for a line, and the state of a name or a subpool.

ghost use Rattle.std.specs.Prelude.{◌≡◌, ◌≤◌, ◌<◌, ◌+◌, ◌++◌, ◌∷◌, ◌==◌, [], IfOk, IfSome, OnOk, length, map, option_map, string_bytes};
ghost use Rattle.std.specs.List.{slice_split};
ghost use Rattle.mvs_model.specs.Grammar as grammar;
ghost use Rattle.mvs_model.specs.Lines.{lines_of};
ghost use Rattle.mvs_model.specs.Reading.{row_of};
ghost use Rattle.expected_answers.specs.Reports.{shown};
ghost use Rattle.job_script.specs.Operations.{operation_text, row_with};
ghost use Rattle.job_script.specs.Rows.{as_keyword, row_at};
ghost use Rattle.language_server.specs.Hovers.{IsHover, IsHoverAt, IsReportIf, answer_paragraphs, answer_text, block, field_by, field_paragraphs, form_row, hover_of, hover_with, is_at_subpool, is_subpool, is_subpool_operand, key_block, key_blocks, key_paragraphs, kind_word, name_blocks, name_paragraphs, named_paragraphs, operand_paragraphs, report_lines, report_paragraphs, report_text, rest_paragraphs, set_paragraphs, set_text, spot_field, spot_line, spot_operation, spot_span, spot_task, starred_blocks, subject_paragraphs, subpool_paragraphs, syntax_blocks};
ghost use Rattle.language_server.specs.Names.{form_word, names_of};
ghost use Rattle.language_server.specs.Explanations.{starred};
ghost use Rattle.language_server.specs.Documents.{answer_at, others_at};
ghost use Rattle.language_server.specs.References.{name_at};
ghost use Rattle.language_server.specs.Subjects.{operand_at};
ghost use Rattle.language_server.specs.Syntax.{operands_text, statement_text};

use crate::document::Document;
use crate::explanations::{push_explanation, starred};
use crate::form_groups::push_syntax;
use crate::hints::front;
use crate::names::{NameKind, Occurrence, Piece, has_bytes, key_in, names_of, split_line};
use crate::paragraphs::{Paragraph, joined, push_block, push_reference, push_text};
use crate::plain_text::push_shown;
use crate::reference_texts::{code_text, rule_text};
use crate::references::name_at;
use crate::span::Span;
use crate::state::without_blank;
use crate::subject::{LinePart, Spot, field_form, form_span, line_field, operand_at};
use crate::syntax::{keyword_text, operands_text, statement_text};
use job_script::operations::{Operation, read_operation};
use job_script::rows::{Keyword, Row};
use job_script::split_once::split_once;
use std::alloc::{AllocError, Global};
use std::marker::Model;

/// The most bytes of an answer that are shown.
const MOST_SHOWN: usize = 1_000;

/// What is shown at a place: the bytes that it is about, and a text in Markdown.
#[derive(Drop)]
pub struct Hover {
    span: Span,
    text: String,
}

impl Model for Hover {
    ghost use Rattle.std.specs.Prelude.{string_bytes};
    ghost use Rattle.language_server.specs.Hovers.{HoverValue};

    ghost Value = { HoverValue };

    ghost view = { λ h. record { span = h.span; text = string_bytes h.text } };
}

impl Hover {
    /// Returns the bytes that it is about.
    pub fn span(&self) -> Span
        ensures { result ≡ self.now.span }
    {
        self.span
    }

    /// Returns its text, in Markdown.
    pub fn text(&self) -> &str
        ensures { result.now ≡ self.now.text }
    {
        &self.text
    }
}

// ---- names

// Returns what a name is the name of.
fn kind_word(kind: NameKind) -> &'static str
    ensures { result.now ≡ kind_word kind }
{
    match kind {
        NameKind::Area => "area",
        NameKind::Task => "task",
        NameKind::Pool => "pool",
    }
}

// Returns a name and the line that sets it, by the number of the lines before that.
fn set_text(alloc: Global, kind: NameKind, name: &[u8], line: usize) -> Result<String, AllocError>
    requires { line < 1048577 }
    ensures { IfOk result (λ text. string_bytes text ≡ set_text kind name.now line) }
{
    let mut text = String::from_str(alloc, kind_word(kind))?;
    text.push_str(" **")?;
    push_shown(&mut text, name)?;
    text.push_str("**, line ")?;
    let number = line + 1;
    write!(text, "{number}")?;
    Ok(text)
}

// Adds the text of a line that begins with an asterisk, if it begins with a name.
fn push_starred(
    alloc: Global,
    found: &mut Vec<Paragraph>,
    name: &[u8],
    line: &[u8],
) -> Result<(), AllocError>
    ensures { OnOk result (found.new.items
        ≡ found.old.items ++ starred_blocks name.now (starred line.now)) }
{
    let Some(said) = starred(line) else {
        return Ok(());
    };
    if !said.starts_with(name) {
        return Ok(());
    }
    let mut text = String::new(alloc);
    push_shown(&mut text, said)?;
    push_block(alloc, found, &text)
}

// Adds the lines of explanations that begin with a name.
fn push_name_blocks(
    alloc: Global,
    found: &mut Vec<Paragraph>,
    name: &[u8],
    others: &[u8],
) -> Result<(), AllocError>
    ensures { OnOk result (found.new.items
        ≡ found.old.items ++ name_blocks name.now (lines_of others.now)) }
{
    let mut rest = others;
    'lines: while has_bytes(rest) {
        let (line, more) = split_line(rest);
        push_starred(alloc, found, name, line)?;
        match more {
            Some(next) => rest = next,
            None => return Ok(()),
        }
    }
    Ok(())
}

// ---- operands

// Adds a keyword, if it has a key.
fn push_key(
    alloc: Global,
    found: &mut Vec<Paragraph>,
    keyword: Keyword,
    key: &[u8],
) -> Result<(), AllocError>
    ensures { OnOk result (found.new.items
        ≡ found.old.items ++ key_block key.now (as_keyword keyword)) }
{
    if keyword.key.text().as_bytes() == key {
        let text = keyword_text(alloc, keyword)?;
        push_block(alloc, found, &text)?;
    }
    Ok(())
}

// Adds those of some keywords that have a key.
fn push_keys(
    alloc: Global,
    found: &mut Vec<Paragraph>,
    keywords: &[Keyword],
    key: &[u8],
) -> Result<(), AllocError>
    ensures { OnOk result (found.new.items
        ≡ found.old.items ++ key_blocks key.now (map as_keyword keywords.now)) }
{
    for keyword in keywords {
        push_key(alloc, found, *keyword, key)?;
    }
    Ok(())
}

// Adds the keywords of the row of an operation with a form that have a key.
fn push_row_keys(
    alloc: Global,
    found: &mut Vec<Paragraph>,
    row: Option<Row>,
    key: &[u8],
) -> Result<(), AllocError>
    ensures { OnOk result (found.new.items
        ≡ found.old.items ++ key_paragraphs (option_map row_at row) key.now) }
{
    match row {
        Some(row) => push_keys(alloc, found, row.keywords(), key),
        None => Ok(()),
    }
}

// Appends a text of a report, after a line feed.
fn push_report_line(text: &mut String, line: &[u8]) -> Result<(), AllocError>
    ensures { OnOk result
        (string_bytes text.new ≡ string_bytes text.old ++ report_lines (line.now ∷ [])) }
{
    text.push_str("\n")?;
    push_shown(text, without_blank(line))
}

// Appends the texts of a report, each after a line feed.
fn push_report_lines(text: &mut String, answer: &[u8]) -> Result<(), AllocError>
    ensures { OnOk result (string_bytes text.new
        ≡ string_bytes text.old ++ report_lines (slice_split (λ b. b == 47) answer.now)) }
{
    let mut rest = answer;
    'texts: loop {
        let (line, more) = split_once(rest, b'/');
        push_report_line(text, line)?;
        match more {
            Some(next) => rest = next,
            None => return Ok(()),
        }
    }
}

// Returns the report of the subpools of a task after a line.
fn report_text(alloc: Global, task: &[u8], answer: &[u8]) -> Result<String, AllocError>
    ensures { IfOk result (λ text. string_bytes text ≡ report_text task.now answer.now) }
{
    let mut text = String::from_str(alloc, "after this line, for ")?;
    push_shown(&mut text, task)?;
    text.push_str(":")?;
    push_report_lines(&mut text, answer)?;
    Ok(text)
}

// Adds the report of the subpools of a task after a line.
fn push_report(
    alloc: Global,
    found: &mut Vec<Paragraph>,
    task: &[u8],
    answer: &[u8],
) -> Result<(), AllocError>
    ensures { OnOk result
        (found.new.items ≡ found.old.items ++ report_paragraphs task.now answer.now) }
{
    if answer.is_empty() {
        return Ok(());
    }
    let text = report_text(alloc, task, answer)?;
    push_block(alloc, found, &text)
}

// Returns whether a key is that of a subpool.
fn is_subpool(key: &[u8]) -> bool
    ensures { result ≡ is_subpool key.now }
{
    key == b"SP".as_slice()
}

// Adds that report, if the operand is a subpool.
fn push_subpools(
    alloc: Global,
    found: &mut Vec<Paragraph>,
    key: &[u8],
    task: &[u8],
    answer: &[u8],
) -> Result<(), AllocError>
    ensures { OnOk result (found.new.items
        ≡ found.old.items ++ subpool_paragraphs key.now task.now answer.now) }
{
    if is_subpool(key) {
        push_report(alloc, found, task, answer)
    } else {
        Ok(())
    }
}

// Adds a statement with a form.
fn push_form(
    alloc: Global,
    found: &mut Vec<Paragraph>,
    operation: Operation,
    form: &[u8],
    row: Row,
) -> Result<(), AllocError>
    ensures { OnOk result (found.new.items ≡ found.old.items
        ++ block (statement_text (operation_text operation) (shown form.now) (operands_text (row_at row))) ∷ []) }
{
    let mut name = String::new(alloc);
    push_shown(&mut name, form)?;
    let operands = operands_text(alloc, row)?;
    let text = statement_text(alloc, operation, &name, &operands)?;
    push_block(alloc, found, &text)
}

// Adds the syntax of the operation that a word is, if it is one.
fn push_word_syntax(
    alloc: Global,
    found: &mut Vec<Paragraph>,
    word: &[u8],
) -> Result<(), AllocError>
    ensures { OnOk result
        (found.new.items ≡ found.old.items ++ syntax_blocks word.now) }
{
    match read_operation(word) {
        Some(operation) => push_syntax(alloc, found, operation),
        None => Ok(()),
    }
}

// Returns the row of the form of a field, if that is at a column.
fn form_row(operation: Operation, field: &Piece<'_>, column: usize) -> Option<Row>
    requires room { field.now.at + length field.now.bytes ≤ 1048576 }
    ensures { option_map row_at result ≡ form_row (operation_text operation) field.now column }
{
    if operation.takes_form() && form_span(field).touches(column) {
        operation.row(field_form(field))
    } else {
        None
    }
}

// Returns whether an operand is a subpool.
fn is_subpool_operand(operand: &Option<Piece<'_>>) -> bool
    ensures { result ≡ is_subpool_operand operand.now }
{
    match operand {
        Some(operand) => is_subpool(key_in(operand.bytes)),
        None => false,
    }
}

// Returns what is shown of some bytes, unless there is no text.
fn hover_with(span: Span, text: Option<String>) -> Option<Hover>
    ensures { result ≡ hover_with span (option_map (λ t. string_bytes t) text) }
{
    text.map(|text| Hover { span, text })
}

impl Document {
    // Returns an answer, or its front, with the explanation.
    fn answer_text(&self, alloc: Global, line: usize) -> Result<String, AllocError>
        ensures { IfOk result (λ text. string_bytes text
            ≡ answer_text 1000 (answer_at self.now line) (others_at self.now line)) }
    {
        let mut text = String::new(alloc);
        push_shown(&mut text, front(self.answer(line), MOST_SHOWN))?;
        push_explanation(&mut text, self.others(line))?;
        Ok(text)
    }

    // Adds what a run printed for a line, with the explanation, and what the reference has about it.
    fn push_answer(
        &self,
        alloc: Global,
        found: &mut Vec<Paragraph>,
        line: usize,
        about: Option<&str>,
        rule: Option<&str>,
    ) -> Result<(), AllocError>
        ensures { OnOk result (found.new.items ≡ found.old.items
            ++ answer_paragraphs self.now line (option_map (λ t. t.now) about.entry) (option_map (λ t. t.now) rule.entry)) }
    {
        if self.answer(line).is_empty() {
            return Ok(());
        }
        let text = self.answer_text(alloc, line)?;
        push_block(alloc, found, &text)?;
        push_reference(alloc, found, about)?;
        push_reference(alloc, found, rule)
    }

    // Adds where a name is set, and what was explained of it there.
    fn push_set(
        &self,
        alloc: Global,
        found: &mut Vec<Paragraph>,
        kind: NameKind,
        name: &[u8],
        set: Option<Occurrence>,
    ) -> Result<(), AllocError>
        requires { IfSome set (λ o. o.line < 1048577) }
        ensures { OnOk result (found.new.items
            ≡ found.old.items ++ set_paragraphs self.now kind name.now set) }
    {
        match set {
            Some(set) => {
                push_text(found, set_text(alloc, kind, name, set.line)?)?;
                push_name_blocks(alloc, found, name, self.others(set.line))
            }
            None => Ok(()),
        }
    }

    // Adds where a name that is known after a line is set.
    fn push_name(
        &self,
        alloc: Global,
        found: &mut Vec<Paragraph>,
        line: usize,
        kind: NameKind,
        name: &[u8],
    ) -> Result<(), AllocError>
        requires { line ≤ 1048576 }
        ensures { OnOk result (found.new.items
            ≡ found.old.items ++ name_paragraphs self.now line kind name.now) }
    {
        let names = names_of(alloc, &self.text)?;
        let set = self.known_name(&names, line + 1, kind, name);
        self.push_set(alloc, found, kind, name, set)
    }

    // Adds where the name at a place is set, if there is one.
    fn push_named(
        &self,
        alloc: Global,
        found: &mut Vec<Paragraph>,
        spot: Spot,
    ) -> Result<(), AllocError>
        requires { spot.line ≤ 1048576 }
        ensures { OnOk result (found.new.items ≡ found.old.items
            ++ named_paragraphs self.now spot.line (name_at spot.place (names_of self.now.text))) }
    {
        let names = names_of(alloc, &self.text)?;
        match name_at(&names, spot.place) {
            Some(name) => {
                self.push_name(alloc, found, spot.line, name.kind, name.span.of(&self.text))
            }
            None => Ok(()),
        }
    }

    // Returns the task of the line of a place.
    fn spot_task(&self, spot: Spot) -> &[u8]
        ensures { result.now ≡ spot_task self.now spot }
    {
        let (task, _) = split_once(self.line(spot.line), b' ');
        task
    }

    /// Returns the operation of the line of a place.
    pub(crate) fn spot_operation(&self, spot: Spot) -> &[u8]
        ensures { result.now ≡ spot_operation self.now spot }
    {
        let line = Piece {
            at: 0,
            bytes: self.line(spot.line),
        };
        line.after_word().first_word()
    }

    /// Returns the operands of the line of a place, and what follows them.
    pub(crate) fn spot_field(&self, spot: Spot) -> Piece<'_>
        ensures field { result ≡ spot_field self.now spot }
        ensures room { result.at + length result.bytes ≤ 1048576 }
    {
        line_field(self.line(spot.line))
    }

    // Adds what is known of an operand.
    fn push_operand(
        &self,
        alloc: Global,
        found: &mut Vec<Paragraph>,
        spot: Spot,
        row: Option<Row>,
        report: &[u8],
    ) -> Result<(), AllocError>
        requires line { spot.line ≤ 1048576 }
        requires row { option_map row_at row
            ≡ row_of (spot_operation self.now spot) (form_word (spot_field self.now spot) ∷ []) }
        ensures { OnOk result (found.new.items ≡ found.old.items
            ++ operand_paragraphs self.now spot report.now (operand_at (spot_field self.now spot) spot.column)) }
    {
        let Some(operand) = operand_at(&self.spot_field(spot), spot.column) else {
            return Ok(());
        };
        let key = key_in(operand.bytes);
        push_row_keys(alloc, found, row, key)?;
        push_subpools(alloc, found, key, self.spot_task(spot), report)?;
        self.push_named(alloc, found, spot)
    }

    // Adds the syntax of the form at a place, or what is known of the operand there.
    fn push_operation_field(
        &self,
        alloc: Global,
        found: &mut Vec<Paragraph>,
        spot: Spot,
        operation: Operation,
        report: &[u8],
    ) -> Result<(), AllocError>
        requires line { spot.line ≤ 1048576 }
        requires operation { spot_operation self.now spot ≡ operation_text operation }
        ensures { OnOk result (found.new.items ≡ found.old.items
            ++ field_by self.now spot report.now (form_row (operation_text operation) (spot_field self.now spot) spot.column)) }
    {
        let field = self.spot_field(spot);
        let form = field_form(&field);
        match form_row(operation, &field, spot.column) {
            Some(row) => push_form(alloc, found, operation, form, row),
            None => self.push_operand(alloc, found, spot, operation.row(form), report),
        }
    }

    // Adds what is known of a place in the operands of a line.
    fn push_field(
        &self,
        alloc: Global,
        found: &mut Vec<Paragraph>,
        spot: Spot,
        report: &[u8],
    ) -> Result<(), AllocError>
        requires { spot.line ≤ 1048576 }
        ensures { OnOk result (found.new.items
            ≡ found.old.items ++ field_paragraphs self.now spot report.now) }
    {
        match read_operation(self.spot_operation(spot)) {
            Some(operation) => self.push_operation_field(alloc, found, spot, operation, report),
            None => Ok(()),
        }
    }

    // Adds what is known of what a place is in, before the answer of its line.
    fn push_subject(
        &self,
        alloc: Global,
        found: &mut Vec<Paragraph>,
        spot: Spot,
        report: &[u8],
    ) -> Result<(), AllocError>
        requires { spot.line ≤ 1048576 }
        ensures { OnOk result (found.new.items
            ≡ found.old.items ++ subject_paragraphs self.now spot report.now spot.subject) }
    {
        let line = self.line(spot.line);
        match spot.subject {
            LinePart::Task(span) => {
                self.push_name(alloc, found, spot.line, NameKind::Task, span.of(line))
            }
            LinePart::Operation(span) => push_word_syntax(alloc, found, span.of(line)),
            LinePart::Field(_) => self.push_field(alloc, found, spot, report),
            LinePart::Remark(_) => Ok(()),
        }
    }

    // Adds the answer of a line, or what the reference has about a remark.
    fn push_rest(
        &self,
        alloc: Global,
        found: &mut Vec<Paragraph>,
        spot: Spot,
        about: Option<&str>,
        rule: Option<&str>,
    ) -> Result<(), AllocError>
        ensures { OnOk result (found.new.items ≡ found.old.items
            ++ rest_paragraphs self.now spot.line (option_map (λ t. t.now) about.entry) (option_map (λ t. t.now) rule.entry) spot.subject) }
    {
        match spot.subject {
            LinePart::Remark(_) => {
                push_reference(alloc, found, about)?;
                push_reference(alloc, found, rule)
            }
            LinePart::Task(_) | LinePart::Operation(_) | LinePart::Field(_) => {
                self.push_answer(alloc, found, spot.line, about, rule)
            }
        }
    }

    // Returns whether a place is in the number of a subpool.
    fn is_at_subpool(&self, spot: Spot) -> bool
        ensures { result ≡ is_at_subpool self.now spot spot.subject }
    {
        match spot.subject {
            LinePart::Field(_) => {
                is_subpool_operand(&operand_at(&self.spot_field(spot), spot.column))
            }
            LinePart::Task(_) | LinePart::Operation(_) | LinePart::Remark(_) => false,
        }
    }

    // Returns the report of the subpools of the task of a line after it, if a place is in the number of a subpool.
    fn report_at(&self, alloc: Global, spot: Spot) -> Result<Vec<u8>, AllocError>
        requires { spot.line ≤ 1048576 }
        ensures { IfOk result (λ report. IsReportIf (is_at_subpool self.now spot spot.subject) self.now spot report.items) }
    {
        if self.is_at_subpool(spot) {
            self.report(alloc, spot.line, self.spot_task(spot))
        } else {
            Ok(Vec::new(alloc))
        }
    }

    // Returns the bytes of the text that a hover at a place is about.
    fn spot_span(&self, spot: Spot) -> Span
        ensures { result ≡ spot_span self.now.text spot }
    {
        self.within_line(spot.line, spot.subject.span())
    }

    // Returns what is shown at a place, by the texts of the reference and the report of subpools.
    fn hover_with(
        &self,
        alloc: Global,
        spot: Spot,
        about: Option<&str>,
        rule: Option<&str>,
        report: &[u8],
    ) -> Result<Option<Hover>, AllocError>
        requires { spot.line ≤ 1048576 }
        ensures { IfOk result (λ shown. shown
            ≡ hover_of self.now spot (option_map (λ t. t.now) about.entry) (option_map (λ t. t.now) rule.entry) report.now) }
    {
        let mut found = Vec::new(alloc);
        self.push_subject(alloc, &mut found, spot, report)?;
        self.push_rest(alloc, &mut found, spot, about, rule)?;
        Ok(hover_with(self.spot_span(spot), joined(alloc, &found)?))
    }

    // Returns what is shown at a place of a line.
    fn hover_at(&self, alloc: Global, spot: Spot) -> Result<Option<Hover>, AllocError>
        requires { spot.line ≤ 1048576 }
        ensures { IfOk result (λ shown. IsHoverAt self.now spot shown) }
    {
        let about = code_text(alloc, self.code_word(spot.line, spot.subject))?;
        let rule = rule_text(self.rule_number(spot.line, spot.subject));
        let report = self.report_at(alloc, spot)?;
        let shown = self.hover_with(alloc, spot, about, rule, &report)?;
        Ok(shown)
    }

    /// Returns what is shown at a place, if there is something.
    pub fn hover(&self, alloc: Global, place: usize) -> Result<Option<Hover>, AllocError>
        ensures { IfOk result (λ shown. IsHover self.now place shown) }
    {
        self.hover_at(alloc, self.spot_at(place))
    }
}
