//! The item of a line.

ghost use Rattle.std.specs.Prelude.{◌≡◌, ◌≢◌, ◌++◌, List, ℕ, OnOk, codes};
ghost use Rattle.mvs_model.specs.FullAnswers.{full_answer};
ghost use Rattle.mvs_model.specs.State.{State};
ghost use Rattle.mvs_model.specs.Texts.{printing};
ghost use Rattle.mvs_model.specs.declared.name.Name.{Name as TaskName};
ghost use Rattle.mvs_job.specs.LineEvents.{HasRequest, IsAvailable, events_of_line};
ghost use Rattle.page.specs.Lines.{change_lines};
ghost use Rattle.page.specs.Changes.{changes_of};
ghost use Rattle.page.specs.Markup.{class_of, answer_class, head_of, reply_of, tail_of};
ghost use Rattle.page.specs.Items.{item_of_event};

use crate::change::push_lines;
use crate::changes::{Changes, put_changes};
use crate::markup::{push_head, push_reply, push_tag, push_tail};
use mvs_job::{LineEvent, Walk};
use mvs_model::answer::Answer;
use std::alloc::{AllocError, Global};

/// A line of a script, without its end, and its number.
#[derive(Clone, Copy)]
pub struct Numbered<'a> {
    pub number: u32,
    pub line: &'a [u8],
}

/// What a line printed, its explanations, the text of its changes, and its item. They are kept from line to line, so that the next
/// line seldom needs more memory.
#[derive(Drop)]
pub struct ItemTexts {
    pub printed: Vec<u8>,
    pub explanation: Vec<u8>,
    pub changes: Vec<u8>,
    pub item: Vec<u8>,
}

impl ItemTexts {
    /// Makes empty texts. It allocates no memory.
    pub fn new(alloc: Global) -> ItemTexts {
        ItemTexts {
            printed: Vec::new(alloc),
            explanation: Vec::new(alloc),
            changes: Vec::new(alloc),
            item: Vec::new(alloc),
        }
    }
}

// Returns how a statement went that is answered so.
fn answer_class(answer: &Answer) -> &'static [u8]
    ensures { (st : State) (fallen : List TaskName) (t : TaskName)
        → result.now ≡ answer_class (full_answer st fallen t answer.now) }
{
    match answer {
        Answer::NotRun | Answer::NoName | Answer::Rc4 | Answer::NoCell => b"no",
        Answer::Abended(_) => b"ab",
        Answer::At(_)
        | Answer::Rc0
        | Answer::Granted(_)
        | Answer::Cell
        | Answer::Attached
        | Answer::Ended
        | Answer::Done
        | Answer::Data(_)
        | Answer::Subpools
        | Answer::Map => b"ok",
    }
}

// Makes the item for the events of a line.
fn class_of(walk: &Walk, line_event: &LineEvent) -> &'static [u8]
    requires { IsAvailable walk.now line_event.now }
    ensures { (number : ℕ) → result.now ≡ class_of (events_of_line number walk.now line_event.now) }
{
    match line_event {
        LineEvent::Answered { answer, .. } => answer_class(answer),
        LineEvent::Nothing | LineEvent::StepBegan { .. } | LineEvent::Faulted(_) => b"ok",
    }
}

// Writes the lines of change of the last line, which has these events, over others.
fn put_lines_of_change(
    lines: &mut Vec<u8>,
    walk: &Walk,
    line_event: &LineEvent,
    changes: &mut Changes,
) -> Result<(), AllocError>
    requires { IsAvailable walk.now line_event.now }
    ensures { OnOk result ((number : ℕ) → HasRequest walk.now line_event.now
        → lines.new.items
        ≡ change_lines walk.now.step
        (changes_of walk.now.read (events_of_line number walk.now line_event.now) walk.now.step)) }
{
    put_changes(changes, walk, line_event);
    lines.clear();
    push_lines(lines, changes.as_slice(), walk)
}

// Writes the item of a line with a fault over another.
fn put_faulted(
    item: &mut Vec<u8>,
    numbered: &Numbered<'_>,
    printed: &[u8],
) -> Result<(), AllocError>
    ensures { OnOk result
        (item.new.items
        ≡ head_of numbered.now.number (codes "js") numbered.now.line.now ++ (reply_of
        printed.now ++ codes "<p>The job ends here.</p>\n</article>\n")) }
{
    item.clear();
    push_head(item, numbered.number, b"js", numbered.line)?;
    push_reply(item, printed)?;
    push_tag(item, b"<p>The job ends here.</p>\n</article>\n")
}

// Writes the item of a statement that went so, with its texts, over another.
fn put_stated(texts: &mut ItemTexts, numbered: &Numbered<'_>, how: &[u8]) -> Result<(), AllocError>
    ensures { OnOk result
        (texts.new.item.items
        ≡ head_of numbered.now.number how.now numbered.now.line.now ++ (reply_of
        texts.old.printed.items ++ tail_of texts.old.explanation.items texts.old.changes.items)) }
{
    let item = &mut texts.item;
    item.clear();
    push_head(item, numbered.number, how, numbered.line)?;
    push_reply(item, &texts.printed)?;
    push_tail(item, &texts.explanation, &texts.changes)
}

/// Makes the item of the last line, which has these events: a statement, or a line with a fault. It is made of what the line
/// printed and of its explanations.
pub fn put_item(
    texts: &mut ItemTexts,
    numbered: &Numbered<'_>,
    walk: &Walk,
    line_event: &LineEvent,
    changes: &mut Changes,
) -> Result<(), AllocError>
    requires full_answer { IsAvailable walk.now line_event.now }
    requires answered { line_event.now ≢ LineEvent.Nothing }
    requires printed { texts.old.printed.items
        ≡ printing (events_of_line numbered.now.number walk.now line_event.now) }
    ensures { OnOk result (HasRequest walk.now line_event.now
        → texts.new.item.items
        ≡ item_of_event numbered.now.number numbered.now.line.now walk.now.read walk.now
        line_event.now texts.old.explanation.items) }
{
    match line_event {
        LineEvent::Nothing => unreachable!(),
        LineEvent::Faulted(_) => put_faulted(&mut texts.item, numbered, &texts.printed),
        LineEvent::StepBegan { .. } | LineEvent::Answered { .. } => {
            put_lines_of_change(&mut texts.changes, walk, line_event, changes)?;
            put_stated(texts, numbered, class_of(walk, line_event))
        }
    }
}
