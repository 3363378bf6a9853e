//! Inlay hints: the answer after each statement.

ghost use Rattle.std.specs.Prelude.{◌≡◌, ◌++◌, [], IfOk, OnOk, take};
ghost use Rattle.language_server.specs.Spans.{line_end};
ghost use Rattle.language_server.specs.Hints.{cut_mark, hints_from, is_hinted, label_of, labelled, onto_hint};

use crate::document::Document;
use crate::line_outputs::LineOutput;
use std::alloc::{AllocError, Global};
use std::marker::Model;

/// The most bytes of an answer that a hint has.
const MOST_LABEL: usize = 60;

/// A hint: the number of the lines before its line, its place, and its text.
#[derive(Drop)]
pub struct InlayHint {
    pub line: usize,
    pub place: usize,
    pub label: Vec<u8>,
}

impl Model for InlayHint {
    ghost use Rattle.language_server.specs.Hints.{HintValue};

    ghost Value = { HintValue };

    ghost view = { λ h. record { line = h.line; place = h.place; label = h.label.items } };
}

/// Returns as many bytes of an answer as are shown.
pub(crate) fn front(answer: &[u8], most: usize) -> &[u8]
    ensures { result.now ≡ take most answer.now }
{
    if answer.len() <= most {
        answer
    } else {
        &answer[..most]
    }
}

// Returns the end of a hint, whose answer is cut or not.
fn cut_mark(is_cut: bool) -> &'static [u8]
    ensures { result.now ≡ cut_mark is_cut }
{
    if is_cut { b" .." } else { b"" }
}

// Appends the label of an answer, which is cut if it is long.
#[tactic(auto, unfolding(crate::specs::Hints::labelled))]
fn push_label(label: &mut Vec<u8>, answer: &[u8], most: usize) -> Result<(), AllocError>
    ensures { OnOk result (label.new.items ≡ label.old.items ++ labelled most answer.now) }
{
    label.extend_from_slice(front(answer, most))?;
    label.extend_from_slice(cut_mark(most < answer.len()))
}

// Returns whether a line has a hint, if it is one of some lines.
fn is_hinted(output: &LineOutput, line: usize, first: usize, last: usize) -> bool
    ensures { result ≡ is_hinted first last line output.now }
{
    !output.answer.is_empty() && (first <= line && line <= last)
}

impl Document {
    // Adds the hint of a line, if it has one.
    fn push_hint(
        &self,
        alloc: Global,
        hints: &mut Vec<InlayHint>,
        output: &LineOutput,
        line: usize,
        is_hinted: bool,
    ) -> Result<(), AllocError>
        ensures { OnOk result (hints.new.items ≡ hints.old.items
            ++ onto_hint is_hinted (record { line = line; place = line_end self.now.text line; label = label_of output.now.answer }) []) }
    {
        if !is_hinted {
            return Ok(());
        }
        let mut label = Vec::new(alloc);
        push_label(&mut label, &output.answer, MOST_LABEL)?;
        hints.push(InlayHint {
            line,
            place: self.end(line),
            label,
        })?;
        Ok(())
    }

    /// Returns the hints of some lines, from the first to the last.
    pub fn hints(
        &self,
        alloc: Global,
        first: usize,
        last: usize,
    ) -> Result<Vec<InlayHint>, AllocError>
        ensures { IfOk result
            (λ hints. hints.items
            ≡ hints_from (line_end self.now.text) 0 first last self.now.outputs) }
    {
        let mut hints = Vec::new(alloc);
        for (line, output) in self.outputs.iter().enumerate() {
            self.push_hint(
                alloc,
                &mut hints,
                output,
                line,
                is_hinted(output, line, first, last),
            )?;
        }
        Ok(hints)
    }
}
