//! Actions that mend what diagnostics report.

ghost use Rattle.std.specs.Prelude.{◌≡◌, ◌≤◌, ◌++◌, ◌∷◌, [], IfOk, OnOk, codes, flat_map, length, map, option_map, string_bytes};
ghost use Rattle.std.specs.List.{list_any};
ghost use Rattle.mvs_model.specs.Lines.{lines_of};
ghost use Rattle.expected_answers.specs.Reports.{shown};
ghost use Rattle.language_server.specs.Fixes.{asks_upper, change, changes_to, fix, fixes_of, is_blank_byte, is_information, is_mended, leak_fixes, meant_by, meant_in, missing_kind, name_fixes, nearest_by, note_fixes, question_by, question_word, upper_byte, word_fixes};

use crate::actions::Action;
use crate::cuts::{after, before, has};
use crate::document::Document;
use crate::names::NameKind;
use crate::notes::{Note, Severity};
use crate::plain_text::{push_shown, shown_text};
use crate::span::Span;
use std::alloc::{AllocError, Global};

// ---- the word that is meant

// Returns whether a text has a blank.
fn has_blank(text: &[u8]) -> bool
    ensures { result ≡ list_any is_blank_byte text.now }
{
    text.iter().any(|byte| *byte == b' ')
}

// Returns a text up to a question mark, if it has one and no blank before that.
fn question_word(text: &[u8]) -> Option<&[u8]>
    ensures { option_map (λ word. word.now) result
        ≡ question_by (Some text.now) }
{
    if after(text, b"?").is_none() {
        return None;
    }
    let word = before(text, b"?");
    if has_blank(word) { None } else { Some(word) }
}

// Returns the word that a message proposes.
fn meant_in(message: &[u8]) -> Option<&[u8]>
    ensures { option_map (λ word. word.now) result ≡ meant_in message.now }
{
    question_word(after(message, b"did you mean ")?)
}

// Returns whether a message says that a word has to be in upper case.
fn asks_upper(message: &[u8]) -> bool
    ensures { result ≡ asks_upper message.now }
{
    has(message, b"use upper case")
}

// Returns a byte in upper case.
fn upper_byte(byte: u8) -> u8
    ensures { result ≡ upper_byte byte }
{
    if b'a' <= byte && byte <= b'z' {
        byte - 32
    } else {
        byte
    }
}

// Returns a word in upper case.
fn upper(alloc: Global, word: &[u8]) -> Result<Vec<u8>, AllocError>
    ensures { IfOk result (λ upper. upper.items ≡ map upper_byte word.now) }
{
    let mut upper = Vec::new(alloc);
    for byte in word {
        upper.push(upper_byte(*byte))?;
    }
    Ok(upper)
}

// Returns what kind of name a diagnostic misses, by its code.
fn missing_kind(code: &[u8]) -> Option<NameKind>
    ensures { result ≡ missing_kind code.now }
{
    if code == b"NO NAME".as_slice() {
        Some(NameKind::Area)
    } else if code == b"NOT RUN".as_slice() {
        Some(NameKind::Task)
    } else {
        None
    }
}

// Returns whether a diagnostic is only information.
fn is_information(severity: Severity) -> bool
    ensures { result ≡ is_information severity }
{
    match severity {
        Severity::Information => true,
        Severity::Error | Severity::Warning => false,
    }
}

// Returns the title of the action that writes a word.
fn change_title(alloc: Global, word: &[u8]) -> Result<String, AllocError>
    ensures { IfOk result (λ title. string_bytes title ≡ codes "Change to " ++ shown word.now) }
{
    let mut title = String::from_str(alloc, "Change to ")?;
    push_shown(&mut title, word)?;
    Ok(title)
}

impl Document {
    // Returns the action that replaces some bytes with a word.
    fn change(&self, alloc: Global, span: Span, word: &[u8]) -> Result<Action, AllocError>
        ensures { IfOk result (λ action. action ≡ change self.now.text span word.now) }
    {
        let title = change_title(alloc, word)?;
        let text = shown_text(alloc, word)?;
        Ok(Action::fix(title, self.within(span), text))
    }

    // Adds the action that replaces some bytes with a word.
    fn push_change(
        &self,
        alloc: Global,
        actions: &mut Vec<Action>,
        span: Span,
        word: &[u8],
    ) -> Result<(), AllocError>
        ensures { OnOk result
            (actions.new.items ≡ actions.old.items ++ change self.now.text span word.now ∷ []) }
    {
        let action = self.change(alloc, span, word)?;
        actions.push(action)?;
        Ok(())
    }

    // Adds the action that replaces some bytes with a word, if there is a word.
    fn push_changes(
        &self,
        alloc: Global,
        actions: &mut Vec<Action>,
        span: Span,
        word: Option<&[u8]>,
    ) -> Result<(), AllocError>
        ensures { OnOk result (actions.new.items
            ≡ actions.old.items ++ changes_to self.now.text span (option_map (λ w. w.now) word.entry)) }
    {
        match word {
            Some(word) => self.push_change(alloc, actions, span, word),
            None => Ok(()),
        }
    }

    // Adds the change of the word of a diagnostic to the intended one, if that is known.
    fn push_meant(
        &self,
        alloc: Global,
        actions: &mut Vec<Action>,
        note: &Note,
    ) -> Result<(), AllocError>
        ensures { OnOk result
            (actions.new.items ≡ actions.old.items ++ word_fixes self.now note.now) }
    {
        let message = note.message.as_bytes();
        if let Some(word) = meant_in(message) {
            return self.push_change(alloc, actions, note.span, word);
        }
        if !asks_upper(message) {
            return Ok(());
        }
        let word = upper(alloc, note.span.of(&self.text))?;
        self.push_change(alloc, actions, note.span, &word)
    }

    // Adds the change to the nearest name of a kind, if there is a kind.
    fn push_nearest_of(
        &self,
        alloc: Global,
        actions: &mut Vec<Action>,
        span: Span,
        kind: Option<NameKind>,
    ) -> Result<(), AllocError>
        ensures { OnOk result (actions.new.items
            ≡ actions.old.items ++ changes_to self.now.text span (nearest_by self.now span kind)) }
    {
        match kind {
            Some(kind) => {
                let word = self.nearest_to(alloc, span, kind)?;
                self.push_changes(alloc, actions, span, word)
            }
            None => Ok(()),
        }
    }

    // Adds the change to the nearest name, if a diagnostic misses one.
    fn push_nearest(
        &self,
        alloc: Global,
        actions: &mut Vec<Action>,
        note: &Note,
    ) -> Result<(), AllocError>
        ensures { OnOk result
            (actions.new.items ≡ actions.old.items ++ name_fixes self.now note.now) }
    {
        let kind = missing_kind(note.code.as_bytes());
        self.push_nearest_of(alloc, actions, note.span, kind)
    }

    // Returns whether a diagnostic is at the lines from the first to the last, and no information.
    fn is_mended(&self, first: usize, last: usize, note: &Note) -> bool
        ensures { result ≡ is_mended self.now.text first last note.now }
    {
        !is_information(note.severity)
            && (self.start(first) <= note.span.start && note.span.start <= self.end(last))
    }

    // Adds the actions that mend what a diagnostic reports, if it is one of these lines.
    fn push_note_fixes(
        &self,
        alloc: Global,
        actions: &mut Vec<Action>,
        first: usize,
        last: usize,
        note: &Note,
    ) -> Result<(), AllocError>
        ensures { OnOk result
            (actions.new.items ≡ actions.old.items ++ note_fixes self.now first last note.now) }
    {
        if self.is_mended(first, last, note) {
            self.push_meant(alloc, actions, note)?;
            self.push_nearest(alloc, actions, note)
        } else {
            Ok(())
        }
    }

    // Adds the actions that mend what diagnostics of these lines report.
    fn push_all_note_fixes(
        &self,
        alloc: Global,
        actions: &mut Vec<Action>,
        first: usize,
        last: usize,
        notes: &[Note],
    ) -> Result<(), AllocError>
        ensures { OnOk result (actions.new.items
            ≡ actions.old.items ++ flat_map (note_fixes self.now first last) notes.now) }
    {
        for note in notes {
            self.push_note_fixes(alloc, actions, first, last, note)?;
        }
        Ok(())
    }

    /// Returns the actions that mend what diagnostics of these lines report, and that release what leaked.
    pub(crate) fn fixes(
        &self,
        alloc: Global,
        first: usize,
        last: usize,
        notes: &[Note],
    ) -> Result<Vec<Action>, AllocError>
        requires { last ≤ 1048576 }
        ensures { IfOk result (λ fixes. fixes.items ≡ fixes_of self.now first last notes.now) }
    {
        let mut actions = Vec::new(alloc);
        self.push_all_note_fixes(alloc, &mut actions, first, last, notes)?;
        self.push_releases(alloc, &mut actions, first, last)?;
        Ok(actions)
    }
}
