//! Paragraphs of a text in Markdown.

ghost use Rattle.std.specs.Prelude.{◌≡◌, ◌++◌, ◌∷◌, [], IfOk, OnOk, map, option_map, string_bytes};
ghost use Rattle.language_server.specs.Hovers.{after_gaps, as_text, before_gap, block, joined, reference_paragraphs};

use expected_answers::parted_at;
use std::alloc::{AllocError, Global};
use std::marker::Model;

/// A paragraph.
#[derive(Drop)]
pub struct Paragraph {
    text: String,
}

impl Model for Paragraph {
    ghost use Rattle.std.specs.Prelude.{ℕ, List, string_bytes};

    ghost Value = { List ℕ };

    ghost view = { λ p. string_bytes p.text };
}

impl Paragraph {
    // Returns its text.
    fn text(&self) -> &str
        ensures { result.now ≡ self.now }
    {
        &self.text
    }
}

/// Adds a paragraph.
pub fn push_text(found: &mut Vec<Paragraph>, text: String) -> Result<(), AllocError>
    ensures { OnOk result (found.new.items ≡ found.old.items ++ string_bytes text ∷ []) }
{
    found.push(Paragraph { text })?;
    Ok(())
}

/// Adds a paragraph that is shown as it is.
pub fn push_block(alloc: Global, found: &mut Vec<Paragraph>, text: &str) -> Result<(), AllocError>
    ensures { OnOk result (found.new.items ≡ found.old.items ++ block text.now ∷ []) }
{
    let mut block = String::from_str(alloc, "```text\n")?;
    block.push_str(text)?;
    block.push_str("\n```")?;
    push_text(found, block)
}

// Returns bytes as a text; those that are none are left out.
fn as_text(bytes: &[u8]) -> &str
    ensures { result.now ≡ as_text bytes.now }
{
    match str::from_utf8(bytes) {
        Ok(text) => text,
        Err(_) => "",
    }
}

// Returns a text up to its first empty line.
fn before_gap(text: &str) -> &[u8]
    ensures { result.now ≡ before_gap text.now }
{
    let (first, _) = parted_at(text.as_bytes(), b"\n\n");
    first
}

/// Adds the first paragraph of a text of the reference, if there is one.
pub fn push_reference(
    alloc: Global,
    found: &mut Vec<Paragraph>,
    text: Option<&str>,
) -> Result<(), AllocError>
    ensures { OnOk result (found.new.items
        ≡ found.old.items ++ reference_paragraphs (option_map (λ t. t.now) text.entry)) }
{
    match text {
        Some(text) => push_block(alloc, found, as_text(before_gap(text))),
        None => Ok(()),
    }
}

// Appends paragraphs, each after an empty line.
fn push_after_gaps(text: &mut String, paragraphs: &[Paragraph]) -> Result<(), AllocError>
    ensures { OnOk result
        (string_bytes text.new ≡ string_bytes text.old ++ after_gaps paragraphs.now) }
{
    for paragraph in paragraphs {
        text.push_str("\n\n")?;
        text.push_str(paragraph.text())?;
    }
    Ok(())
}

/// Returns paragraphs with an empty line between them, unless there are none.
pub fn joined(alloc: Global, paragraphs: &[Paragraph]) -> Result<Option<String>, AllocError>
    ensures { IfOk result
        (λ text. option_map (λ t. string_bytes t) text ≡ joined paragraphs.now) }
{
    match paragraphs {
        [] => Ok(None),
        [first, rest @ ..] => {
            let mut text = String::from_str(alloc, first.text())?;
            push_after_gaps(&mut text, rest)?;
            Ok(Some(text))
        }
    }
}
