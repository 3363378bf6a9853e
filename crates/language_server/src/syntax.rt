//! The syntax of statements, in the notation of the manual.

ghost use Rattle.std.specs.Prelude.{◌≡◌, ◌++◌, ◌∷◌, [], IfOk, OnOk, decimal, map, string_bytes, true};
ghost use Rattle.mvs_model.specs.Reading.{is_empty, row_of};
ghost use Rattle.job_script.specs.Kinds.{as_kind};
ghost use Rattle.job_script.specs.Operations.{operation_text, row_with};
ghost use Rattle.job_script.specs.Rows.{as_keyword, as_positional, row_at};
ghost use Rattle.language_server.specs.Syntax.{after_bars, after_form, alternatives, begins_bracket, comma, item_text, items_text, keyword_item, keyword_notation, keyword_text, limits_text, notation, operands_text, positional_item, range_text, required_text, row_operands, statement_text};

use job_script::kinds::Kind;
use job_script::operations::Operation;
use job_script::rows::{Keyword, Positional, Row};
use std::alloc::{AllocError, Global};

// Appends words, each after a bar.
fn push_after_bars(text: &mut String, words: &[&str]) -> Result<(), AllocError>
    ensures { OnOk result (string_bytes text.new
        ≡ string_bytes text.old ++ after_bars (map (λ word. word.now) words.now)) }
{
    for word in words {
        text.push_str("|")?;
        text.push_str(word)?;
    }
    Ok(())
}

// Appends words with bars between them.
fn push_alternatives(text: &mut String, words: &[&str]) -> Result<(), AllocError>
    ensures { OnOk result (string_bytes text.new
        ≡ string_bytes text.old ++ alternatives (map (λ word. word.now) words.now)) }
{
    match words {
        [] => Ok(()),
        [word, rest @ ..] => {
            text.push_str(word)?;
            push_after_bars(text, rest)
        }
    }
}

// Appends what an operand of a kind looks like.
fn push_notation(text: &mut String, kind: Kind) -> Result<(), AllocError>
    ensures { OnOk result
        (string_bytes text.new ≡ string_bytes text.old ++ notation (as_kind kind)) }
{
    match kind {
        Kind::Number(..) => text.push_str("n"),
        Kind::HexByte => text.push_str("hh"),
        Kind::Word(words) => push_alternatives(text, words.texts()),
        Kind::Name => text.push_str("name"),
        Kind::Address => text.push_str("address"),
        Kind::Bytes(_) => text.push_str("X'h..h'"),
        Kind::Pair(..) => text.push_str("(l,s)"),
        Kind::NumberOrPair(..) => text.push_str("n|(l,s)"),
        Kind::Numbers(..) => text.push_str("(n,..)"),
        Kind::DistinctNumbers(..) => text.push_str("(n,..)"),
        Kind::DistinctNames(_) => text.push_str("(name,..)"),
        Kind::Addresses(_) => text.push_str("(address,..)"),
    }
}

// Appends a keyword and what its operand looks like.
fn push_keyword_notation(text: &mut String, keyword: Keyword) -> Result<(), AllocError>
    ensures { OnOk result (string_bytes text.new
        ≡ string_bytes text.old ++ keyword_notation (as_keyword keyword)) }
{
    text.push_str(keyword.key.text())?;
    text.push_str("=")?;
    push_notation(text, keyword.kind)
}

// ---- operands

// Returns what separates an operand from the one before it, if it is not the first.
fn comma(is_first: bool) -> &'static str
    ensures { result.now ≡ comma is_first }
{
    if is_first { "" } else { "," }
}

// Appends an operand, which is the first or not.
fn push_item(
    text: &mut String,
    is_first: bool,
    required: bool,
    item: &str,
) -> Result<(), AllocError>
    ensures { OnOk result (string_bytes text.new
        ≡ string_bytes text.old ++ item_text is_first required item.now) }
{
    if required {
        text.push_str(comma(is_first))?;
        text.push_str(item)
    } else {
        text.push_str("[")?;
        text.push_str(comma(is_first))?;
        text.push_str(item)?;
        text.push_str("]")
    }
}

// Appends a positional operand, which is the first or not.
fn push_positional(
    alloc: Global,
    text: &mut String,
    is_first: bool,
    operand: Positional,
) -> Result<(), AllocError>
    ensures { OnOk result (string_bytes text.new
        ≡ string_bytes text.old ++ items_text is_first (positional_item (as_positional operand) ∷ [])) }
{
    let mut item = String::new(alloc);
    push_notation(&mut item, operand.kind)?;
    push_item(text, is_first, operand.required, &item)
}

// Appends a keyword operand, which is the first or not.
fn push_keyword(
    alloc: Global,
    text: &mut String,
    is_first: bool,
    keyword: Keyword,
) -> Result<(), AllocError>
    ensures { OnOk result (string_bytes text.new
        ≡ string_bytes text.old ++ items_text is_first (keyword_item (as_keyword keyword) ∷ [])) }
{
    let mut item = String::new(alloc);
    push_keyword_notation(&mut item, keyword)?;
    push_item(text, is_first, keyword.required, &item)
}

// Appends the positional operands of a statement.
fn push_positionals(
    alloc: Global,
    text: &mut String,
    operands: &[Positional],
) -> Result<(), AllocError>
    ensures { OnOk result (string_bytes text.new
        ≡ string_bytes text.old ++ items_text true (map positional_item (map as_positional operands.now))) }
{
    let mut is_first = true;
    for operand in operands {
        push_positional(alloc, text, is_first, *operand)?;
        is_first = false;
    }
    Ok(())
}

// Appends the keyword operands of a statement.
fn push_keywords(
    alloc: Global,
    text: &mut String,
    is_first: bool,
    keywords: &[Keyword],
) -> Result<(), AllocError>
    ensures { OnOk result (string_bytes text.new
        ≡ string_bytes text.old ++ items_text is_first (map keyword_item (map as_keyword keywords.now))) }
{
    let mut first = is_first;
    for keyword in keywords {
        push_keyword(alloc, text, first, *keyword)?;
        first = false;
    }
    Ok(())
}

// Returns whether there are no positional operands.
fn has_none(operands: &[Positional]) -> bool
    ensures { result ≡ is_empty (map as_positional operands.now) }
{
    match operands {
        [] => true,
        [_, ..] => false,
    }
}

/// Returns the operands of a row.
pub fn operands_text(alloc: Global, row: Row) -> Result<String, AllocError>
    ensures { IfOk result (λ text. string_bytes text ≡ operands_text (row_at row)) }
{
    let mut text = String::new(alloc);
    let operands = row.positional();
    push_positionals(alloc, &mut text, operands)?;
    push_keywords(alloc, &mut text, has_none(operands), row.keywords())?;
    Ok(text)
}

/// Returns the operands that an operation takes with a form.
pub fn operands_with(alloc: Global, operation: Operation, form: &[u8]) -> Result<String, AllocError>
    ensures { IfOk result
        (λ text. string_bytes text ≡ row_operands (row_with operation form.now)) }
{
    match operation.row(form) {
        Some(row) => operands_text(alloc, row),
        None => Ok(String::new(alloc)),
    }
}

// ---- keywords

// Appends the limits of a number.
fn push_range(text: &mut String, least: u32, most: u32) -> Result<(), AllocError>
    ensures { OnOk result (string_bytes text.new ≡ string_bytes text.old ++ range_text least most) }
{
    text.push_str(", ")?;
    write!(text, "{least}")?;
    text.push_str(" to ")?;
    write!(text, "{most}")
}

// Appends the limits of an operand of a kind, if it has some.
fn push_limits(text: &mut String, kind: Kind) -> Result<(), AllocError>
    ensures { OnOk result
        (string_bytes text.new ≡ string_bytes text.old ++ limits_text (as_kind kind)) }
{
    match kind {
        Kind::Number(least, most)
        | Kind::Pair(least, most)
        | Kind::NumberOrPair(least, most)
        | Kind::Numbers(_, least, most)
        | Kind::DistinctNumbers(least, most) => push_range(text, least, most),
        Kind::HexByte
        | Kind::Word(_)
        | Kind::Name
        | Kind::Address
        | Kind::Bytes(_)
        | Kind::DistinctNames(_)
        | Kind::Addresses(_) => Ok(()),
    }
}

// Returns what a required operand has after its limits.
fn required_text(required: bool) -> &'static str
    ensures { result.now ≡ required_text required }
{
    if required { ", required" } else { "" }
}

/// Returns a keyword operand with what it looks like, and its limits if it has some.
pub fn keyword_text(alloc: Global, keyword: Keyword) -> Result<String, AllocError>
    ensures { IfOk result (λ text. string_bytes text ≡ keyword_text (as_keyword keyword)) }
{
    let mut text = String::new(alloc);
    push_keyword_notation(&mut text, keyword)?;
    push_limits(&mut text, keyword.kind)?;
    text.push_str(required_text(keyword.required))?;
    Ok(text)
}

// ---- statements

// Returns whether a text begins with a bracket, or is empty.
fn begins_bracket(text: &str) -> bool
    ensures { result ≡ begins_bracket text.now }
{
    match text.as_bytes().first() {
        Some(byte) => *byte == b'[',
        None => true,
    }
}

// Appends the operands after a form, or after an operation that has none.
fn push_after_form(text: &mut String, form: &str, operands: &str) -> Result<(), AllocError>
    ensures { OnOk result (string_bytes text.new
        ≡ string_bytes text.old ++ after_form form.now operands.now) }
{
    if !form.is_empty() && !begins_bracket(operands) {
        text.push_str(",")?;
    }
    text.push_str(operands)
}

/// Returns a statement with its operands. The form is empty if it has none.
pub fn statement_text(
    alloc: Global,
    operation: Operation,
    form: &str,
    operands: &str,
) -> Result<String, AllocError>
    ensures { IfOk result (λ text. string_bytes text
        ≡ statement_text (operation_text operation) form.now operands.now) }
{
    let mut text = String::from_str(alloc, operation.text())?;
    text.push_str(" ")?;
    text.push_str(form)?;
    push_after_form(&mut text, form, operands)?;
    Ok(text)
}
