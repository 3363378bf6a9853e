//! Actions that release areas that leaked.

ghost use Rattle.std.specs.Prelude.{◌≡◌, ◌≤◌, ◌+◌, ◌-◌, ◌++◌, ◌∷◌, [], IfOk, OnOk, Some, codes, flat_map, length, option_map, slice_get, string_bytes, unwrap_or};
ghost use Rattle.std.specs.List.{list_all};
ghost use Rattle.mvs_model.specs.Lines.{lines_of};
ghost use Rattle.mvs_model.specs.Reading.{is_digit};
ghost use Rattle.language_server.specs.Fixes.{begins_step, digits_or, ends_itself, feed_if, fix, is_at_begin, is_end, is_feed, later_line, leak_fixes, leak_fixes_by, leak_length, leak_subpool, leak_words, length_by, obtained_by, own_line, release_by, release_fix, release_fixes_by, release_line, release_of, release_place, release_text, statement_line, word_of};
ghost use Rattle.language_server.specs.LeakNotes.{leak_in};
ghost use Rattle.language_server.specs.LineOutputs.{task_of};
ghost use Rattle.language_server.specs.Names.{operation_word};
ghost use Rattle.language_server.specs.Words.{line_piece};
ghost use Rattle.language_server.specs.Spans.{line_starts};

use crate::actions::Action;
use crate::cuts::{after, before};
use crate::document::Document;
use crate::leak_notes::{LeakLine, leak_in};
use crate::names::{Piece, begins_statement, has_bytes, is_region, split_blank, split_line};
use crate::plain_text::push_shown;
use crate::span::Span;
use crate::state::without_blank;
use job_script::split_once::split_once;
use std::alloc::{AllocError, Global};

// ---- what a report says of an area

// Returns what a line of a report has after what it is about.
fn leak_words(text: &[u8]) -> &[u8]
    ensures { result.now ≡ leak_words text.now }
{
    let (_, rest) = split_once(text, b':');
    without_blank(rest.unwrap_or(&[]))
}

// Returns whether all bytes are digits.
fn are_digits(text: &[u8]) -> bool
    ensures { result ≡ list_all is_digit text.now }
{
    text.iter().all(|byte| byte.is_ascii_digit())
}

// Returns the length of an area, if all of it is left.
fn leak_length(words: &[u8]) -> Option<&[u8]>
    ensures { option_map (λ text. text.now) result ≡ leak_length words.now }
{
    if after(words, b" bytes at ").is_none() {
        return None;
    }
    let digits = before(words, b" bytes at ");
    if are_digits(digits) {
        Some(digits)
    } else {
        None
    }
}

// Returns the word with which a text begins, if there is a text.
fn word_of(text: Option<&[u8]>) -> Option<&[u8]>
    ensures { option_map (λ word. word.now) result
        ≡ word_of (option_map (λ t. t.now) text.entry) }
{
    let (word, _) = split_blank(text?);
    Some(word)
}

// Returns the number of the subpool of an area.
fn leak_subpool(words: &[u8]) -> Option<&[u8]>
    ensures { option_map (λ text. text.now) result ≡ leak_subpool words.now }
{
    word_of(after(words, b" in SP "))
}

// Returns a word, or nothing.
fn or_empty(word: Option<&[u8]>) -> &[u8]
    ensures { result.now ≡ unwrap_or (option_map (λ w. w.now) word.entry) [] }
{
    match word {
        Some(word) => word,
        None => &[],
    }
}

// Returns the task that obtained an area.
fn obtained_by(text: &[u8]) -> &[u8]
    ensures { result.now ≡ obtained_by text.now }
{
    or_empty(word_of(after(text, b"obtained by ")))
}

// Returns the statement that releases an area.
fn release_text(
    alloc: Global,
    area: &[u8],
    len: &[u8],
    subpool: &[u8],
) -> Result<String, AllocError>
    ensures { IfOk result
        (λ text. string_bytes text ≡ release_text area.now len.now subpool.now) }
{
    let mut text = String::from_str(alloc, "FREEMAIN RU,LV=")?;
    push_shown(&mut text, len)?;
    text.push_str(",A=")?;
    push_shown(&mut text, area)?;
    text.push_str(",SP=")?;
    push_shown(&mut text, subpool)?;
    Ok(text)
}

// Returns the statement that releases an area, if all of it is left.
fn release_of(alloc: Global, leak: &LeakLine<'_>) -> Result<Option<String>, AllocError>
    ensures { IfOk result
        (λ found. option_map (λ text. string_bytes text) found ≡ release_of leak.now) }
{
    let words = leak_words(leak.text);
    let Some(len) = leak_length(words) else {
        return Ok(None);
    };
    let Some(subpool) = leak_subpool(words) else {
        return Ok(None);
    };
    let text = release_text(alloc, leak.area, len, subpool)?;
    Ok(Some(text))
}

// ---- where a release is written

// Returns the operation of a line.
fn operation_of(line: &[u8]) -> &[u8]
    requires { length line.now ≤ 1048576 }
    ensures { result.now ≡ operation_word (line_piece line.now) }
{
    let line = Piece { at: 0, bytes: line };
    line.after_word().first_word()
}

// Returns whether a line begins a step.
fn begins_step(line: &[u8]) -> bool
    requires { length line.now ≤ 1048576 }
    ensures { result ≡ begins_step line.now }
{
    begins_statement(line) && is_region(operation_of(line))
}

// Returns whether an operation ends a task.
fn is_end(operation: &[u8]) -> bool
    ensures { result ≡ is_end operation.now }
{
    operation == b"RETURN".as_slice() || operation == b"ABEND".as_slice()
}

// Returns the task of a line.
fn task_of(line: &[u8]) -> &[u8]
    ensures { result.now ≡ task_of line.now }
{
    let (task, _) = split_blank(line);
    task
}

// Returns whether a task ends itself in a line.
fn ends_itself(task: &[u8], line: &[u8]) -> bool
    requires { length line.now ≤ 1048576 }
    ensures { result ≡ ends_itself task.now line.now }
{
    begins_statement(line) && (is_end(operation_of(line)) && task_of(line) == task)
}

// Returns a line, if it has a statement, or else an earlier one.
fn later_line(last: usize, line: usize, has_statement: bool) -> usize
    ensures { result ≡ later_line last line has_statement }
{
    if has_statement { line } else { last }
}

// Returns whether a byte is a line feed.
fn is_feed(byte: Option<&u8>) -> bool
    ensures { result ≡ is_feed (option_map (λ b. b.now) byte.entry) }
{
    match byte {
        Some(byte) => *byte == b'\n',
        None => false,
    }
}

// Returns whether a line begins at a place.
fn is_at_begin(text: &[u8], place: usize) -> bool
    ensures { result ≡ is_at_begin text.now place }
{
    place == 0 || is_feed(text.get(place.saturating_sub(1)))
}

// Returns a line feed, or nothing.
fn feed_if(is_needed: bool) -> &'static str
    ensures { result.now ≡ feed_if is_needed }
{
    if is_needed { "\n" } else { "" }
}

// Appends the statement of a task.
fn push_statement(text: &mut String, task: &[u8], statement: &str) -> Result<(), AllocError>
    ensures { OnOk result (string_bytes text.new
        ≡ string_bytes text.old ++ statement_line task.now statement.now) }
{
    push_shown(text, task)?;
    text.push_str(" ")?;
    text.push_str(statement)
}

// Returns the statement of a task as a line of its own, where a line begins or not.
fn own_line(
    alloc: Global,
    is_at_begin: bool,
    task: &[u8],
    statement: &str,
) -> Result<String, AllocError>
    ensures { IfOk result (λ text. string_bytes text
        ≡ own_line is_at_begin (statement_line task.now statement.now)) }
{
    let mut text = String::from_str(alloc, feed_if(!is_at_begin))?;
    push_statement(&mut text, task, statement)?;
    text.push_str(feed_if(is_at_begin))?;
    Ok(text)
}

impl Document {
    // Returns before which line a task releases an area, after a statement.
    fn release_line(&self, line: usize, task: &[u8]) -> usize
        requires { line ≤ 1048576 }
        ensures { result ≡ release_line self.now.text task.now line (line + 1)
            (length (line_starts self.now.text) - (line + 1)) }
    {
        let count = self.line_count();
        let mut last = line;
        let mut at = line + 1;
        'lines: while at < count {
            let bytes = self.line(at);
            if begins_step(bytes) {
                return last + 1;
            }
            if ends_itself(task, bytes) {
                return at;
            }
            last = later_line(last, at, begins_statement(bytes));
            at += 1;
        }
        last + 1
    }

    // Returns where a task releases an area, after a statement.
    fn release_place(&self, line: usize, task: &[u8]) -> usize
        requires { line ≤ 1048576 }
        ensures { result ≡ release_place self.now.text line task.now }
    {
        self.start(self.release_line(line, task))
    }

    // Returns the action that writes the release of an area at a place.
    fn release_fix(
        &self,
        alloc: Global,
        place: usize,
        task: &[u8],
        statement: &str,
    ) -> Result<Action, AllocError>
        ensures { IfOk result
            (λ action. action ≡ release_fix self.now.text place task.now statement.now) }
    {
        let mut title = String::from_str(alloc, "Insert ")?;
        title.push_str(statement)?;
        let text = own_line(alloc, is_at_begin(&self.text, place), task, statement)?;
        let span = Span {
            start: place,
            end: place,
        };
        Ok(Action::fix(title, self.within(span), text))
    }

    // Adds the action that writes the release of an area.
    fn push_release(
        &self,
        alloc: Global,
        actions: &mut Vec<Action>,
        leak: &LeakLine<'_>,
        statement: &str,
    ) -> Result<(), AllocError>
        requires { leak.now.line ≤ 1048576 }
        ensures { OnOk result (actions.new.items ≡ actions.old.items
            ++ release_fixes_by self.now.text leak.now (Some statement.now)) }
    {
        let task = obtained_by(leak.text);
        let place = self.release_place(leak.line, task);
        let action = self.release_fix(alloc, place, task, statement)?;
        actions.push(action)?;
        Ok(())
    }

    // Adds the release of an area, if all of it is left.
    fn push_if_whole(
        &self,
        alloc: Global,
        actions: &mut Vec<Action>,
        leak: &LeakLine<'_>,
    ) -> Result<(), AllocError>
        requires { leak.now.line ≤ 1048576 }
        ensures { OnOk result (actions.new.items ≡ actions.old.items
            ++ release_fixes_by self.now.text leak.now (release_of leak.now)) }
    {
        match release_of(alloc, leak)? {
            Some(statement) => self.push_release(alloc, actions, leak, &statement),
            None => Ok(()),
        }
    }

    // Adds the release of an area, if one of these lines obtained it.
    fn push_if_between(
        &self,
        alloc: Global,
        actions: &mut Vec<Action>,
        first: usize,
        last: usize,
        leak: &LeakLine<'_>,
    ) -> Result<(), AllocError>
        requires { last ≤ 1048576 }
        ensures { OnOk result (actions.new.items ≡ actions.old.items
            ++ leak_fixes_by self.now.text first last (Some leak.now)) }
    {
        if first <= leak.line && leak.line <= last {
            self.push_if_whole(alloc, actions, leak)
        } else {
            Ok(())
        }
    }

    // Adds the release of an area that a line of a report is about, if one of these lines obtained it.
    fn push_leak_fix(
        &self,
        alloc: Global,
        actions: &mut Vec<Action>,
        first: usize,
        last: usize,
        line: &[u8],
    ) -> Result<(), AllocError>
        requires { last ≤ 1048576 }
        ensures { OnOk result (actions.new.items ≡ actions.old.items
            ++ leak_fixes_by self.now.text first last (leak_in line.now)) }
    {
        match leak_in(line) {
            Some(leak) => self.push_if_between(alloc, actions, first, last, &leak),
            None => Ok(()),
        }
    }

    /// Adds the releases of areas that the lines from the first to the last obtained.
    pub(crate) fn push_releases(
        &self,
        alloc: Global,
        actions: &mut Vec<Action>,
        first: usize,
        last: usize,
    ) -> Result<(), AllocError>
        requires { last ≤ 1048576 }
        ensures { OnOk result (actions.new.items
            ≡ actions.old.items ++ leak_fixes self.now.text first last (lines_of self.now.leaks)) }
    {
        let mut rest: &[u8] = &self.leaks;
        'lines: while has_bytes(rest) {
            let (line, more) = split_line(rest);
            self.push_leak_fix(alloc, actions, first, last, line)?;
            match more {
                Some(next) => rest = next,
                None => return Ok(()),
            }
        }
        Ok(())
    }
}
