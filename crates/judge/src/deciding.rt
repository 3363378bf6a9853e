//! Decides what some lines of a script mean for an output, with the addresses that the output shows right after the grants.

ghost use Rattle.std.specs.Prelude.{◌≡◌, ◌<◌, ◌≤◌, ◌+◌, ◌^◌, ◌++◌, ◌∷◌, ◌&&◌, not, [], List, ℕ, true, false, IfOk, IfSome, MatchOption, length, drop, take};
ghost use Rattle.std.specs.List.{AllByRecursion};
ghost use Rattle.mvs_model.specs.Texts.{answer_text, hex, printing, reply_line, one_line_text};
ghost use Rattle.mvs_model.specs.Answers.{At};
ghost use Rattle.mvs_job.specs.LineEvents.{ServesAsUnder, events_of_line};
ghost use Rattle.mvs_model.specs.Walk.{is_first};
ghost use Rattle.job_script.specs.LineMeaning.{filled};
ghost use Rattle.request_forms.specs.Taking.{Takes};
ghost use Rattle.mvs_model.specs.FullAnswers.{has_long_data, full_answer};
ghost use Rattle.mvs_model.specs.Lines.{IsLine, lines_of};
ghost use Rattle.mvs_model.specs.State.{State};
ghost use Rattle.mvs_model.specs.declared.name.Name.{Name as TaskName};
ghost use Rattle.judge.specs.Deciding.{Decides, DecidesBefore, InBounds, IsParsed, IsSameJob, IsClosed, IsFoundFirst, IsFoundShown, IsGrant, IsList, IsServed, ReadsEach, at_text, no_bytes};
ghost use Rattle.judge.specs.Judging.{AskEach, BeginsAnswered, IsOpen, IsQuestion};

use crate::kinds::{GrantKind, GrantQuestion, asks_each, parsed_kind, question_end};
use crate::list_answers::opens_list;
use job_script::digits::{are_hex_digits, hex_number};
use job_script::print_short_answer;
use mvs_job::{LineEvent, Unobserved, Walk, line_end, print_line};
use mvs_model::answer::Answer;
use mvs_model::error::OutOfMemory;
use mvs_model::line::{Fault, Names};
use mvs_model::name::Name;
use mvs_model::place::Addr;
use mvs_model::watched::Watched;
use std::alloc::Global;

/// The lines of a script that were executed, and how an output continues.
#[derive(Drop)]
pub struct ServedLines {
    /// What is printed of it.
    pub text: Vec<u8>,
    /// Whether the job continues: no line has a fault.
    pub continues: bool,
    /// Whether a run may still print the output. Where the job does not go on, it is then just this text.
    pub passes: bool,
}

/// The lines that were executed, as a number of bytes of the script.
#[derive(Drop)]
pub struct DecidedLines {
    pub taken: usize,
    pub served: ServedLines,
    /// Whether they leave it open: a list is granted that the output refuses, or the other way round.
    pub is_open: bool,
}

impl DecidedLines {
    /// Returns whether it is decided that the job continues, and that a run can still print the output.
    pub fn follows(&self) -> bool
        ensures { result ≡ (self.now.served.passes && self.now.served.continues && not self.now.is_open) }
    {
        self.served.passes && self.served.continues && !self.is_open
    }
}

// A task requests areas. Each sets a name.
#[derive(Drop)]
struct Listed {
    task: Name,
    areas: Names,
}

// The events of a line, and the text printed so far.
#[derive(Drop)]
pub(crate) struct Printed {
    pub(crate) line_event: LineEvent,
    pub(crate) text: Vec<u8>,
}

// Executes the line that was parsed last, and appends what it prints. Parsing has returned this.
fn print_parsed(
    walk: &mut Walk,
    parsed: Result<(), Fault>,
    hints: &[Addr],
    text: Vec<u8>,
) -> Result<Printed, OutOfMemory>
    requires number { walk.old.number + 1 < 2 ^ 32 }
    requires in_range { IsLine (is_first walk.old.step) (filled walk.old.read parsed) }
    ensures served { (line : List ℕ) → IsParsed walk.old parsed line → IfOk result
        (λ p. ServesAsUnder (Takes hints.now) walk.old line p.line_event walk.new) }
    ensures printed { IfOk result
        (λ p. p.text.items
        ≡ text.items ++ printing (events_of_line walk.old.number walk.new p.line_event)) }
    ensures number { walk.new.number ≡ walk.old.number + 1 }
{
    let line_number = walk.number();
    let Ok(line_event) = walk.execute(parsed, hints, &mut Unobserved) else {
        return Err(OutOfMemory);
    };
    let mut writer = Watched::new(text);
    print_line(&mut writer, line_number, walk, &line_event).map_err(|_| OutOfMemory)?;
    Ok(Printed {
        line_event,
        text: writer.into_inner(),
    })
}

// Executes a line, and appends what it prints.
pub(crate) fn print_next(
    walk: &mut Walk,
    line: &[u8],
    hints: &[Addr],
    text: Vec<u8>,
) -> Result<Printed, OutOfMemory>
    requires { walk.old.number + 1 < 2 ^ 32 }
    ensures served { IfOk result
        (λ p. ServesAsUnder (Takes hints.now) walk.old line.now p.line_event walk.new) }
    ensures printed { IfOk result
        (λ p. p.text.items
        ≡ text.items ++ printing (events_of_line walk.old.number walk.new p.line_event)) }
    ensures number { walk.new.number ≡ walk.old.number + 1 }
{
    let line_number = walk.number();
    let Ok(line_event) = walk.line(line, hints) else {
        return Err(OutOfMemory);
    };
    let mut writer = Watched::new(text);
    print_line(&mut writer, line_number, walk, &line_event).map_err(|_| OutOfMemory)?;
    Ok(Printed {
        line_event,
        text: writer.into_inner(),
    })
}

// Returns a text without its bytes, for which it keeps the memory.
pub(crate) fn emptied(mut text: Vec<u8>) -> Vec<u8>
    ensures { result.items ≡ [] }
{
    text.clear();
    text
}

// Returns whether a text begins so.
pub(crate) fn begins(text: &[u8], front: &[u8]) -> bool
    ensures yes { result ≡ true → text.now ≡ front.now ++ drop (length front.now) text.now }
    ensures no { (rest : List ℕ) → text.now ≡ front.now ++ rest → result ≡ true }
    ensures within { result ≡ true → length front.now ≤ length text.now }
{
    text.starts_with(front)
}

// Decides at the line that was parsed last, which can be granted no place. The text is empty.
fn decide_line(
    walk: &mut Walk,
    parsed: Result<(), Fault>,
    left: &[u8],
    empty: Vec<u8>,
) -> Result<ServedLines, OutOfMemory>
    requires number { walk.old.number + 1 < 2 ^ 32 }
    requires in_range { IsLine (is_first walk.old.step) (filled walk.old.read parsed) }
    requires empty { empty.items ≡ [] }
    ensures served { (line : List ℕ) → IsParsed walk.old parsed line → IfOk result
        (λ s. IsServed (line ∷ []) walk.old s.text.items s.continues walk.new) }
    ensures decided { (line : List ℕ) → IsParsed walk.old parsed line → IsClosed walk.old.step line
        → IfOk result
        (λ s. Decides (line ∷ []) left.now walk.old s.text.items s.continues s.passes walk.new) }
    ensures number { walk.new.number ≡ walk.old.number + 1 }
    ensures bounds { (line : List ℕ) → IsParsed walk.old parsed line → IfOk result
        (λ s. InBounds walk.old.step → InBounds walk.new.step) }
{
    let printed = print_parsed(walk, parsed, &[], empty)?;
    let text = printed.text;
    if let LineEvent::Faulted(_) = printed.line_event {
        let passes = left == text.as_slice();
        return Ok(ServedLines {
            text,
            continues: false,
            passes,
        });
    }
    let passes = begins(left, text.as_slice());
    Ok(ServedLines {
        text,
        continues: true,
        passes,
    })
}

// Appends an answer of one line.
pub(crate) fn print_answer(
    text: Vec<u8>,
    line_number: u32,
    task: &Name,
    answer: &Answer,
) -> Result<Vec<u8>, OutOfMemory>
    requires { has_long_data answer.now ≡ false }
    ensures { (st : State) → IfOk result
        (λ all. all.items
        ≡ text.items ++ answer_text line_number task.now (full_answer st [] task.now answer.now)) }
{
    let mut writer = Watched::new(text);
    print_short_answer(&mut writer, line_number, task, answer).map_err(|_| OutOfMemory)?;
    Ok(writer.into_inner())
}

// Returns the answer to a granted request for an area of no bytes.
fn no_bytes(variable: bool) -> Answer
    ensures has_long_data { has_long_data result ≡ false }
    ensures answer { (st : State) (task : TaskName) → full_answer st [] task result ≡ no_bytes variable }
{
    if variable {
        Answer::Granted(0)
    } else {
        Answer::Rc0
    }
}

// Returns how many bytes are printed of a granted request for an area, whose line has this number, and of a question for it, up to the end.
// The text is empty, and comes back so.
fn answered_len(
    line_number: u32,
    asked: &GrantQuestion,
    empty: Vec<u8>,
) -> Result<(usize, Vec<u8>), OutOfMemory>
    requires number { line_number + 1 < 2 ^ 32 }
    requires empty { empty.items ≡ [] }
    ensures len { IfOk result
        (λ n. n.0 ≡ length (answer_text line_number asked.now.task (no_bytes asked.now.variable))
        + length (reply_line (line_number + 1) asked.now.task (one_line_text (At 0)))) }
    ensures emptied { IfOk result (λ n. n.1.items ≡ []) }
{
    let granted = no_bytes(asked.variable);
    let text = print_answer(empty, line_number, &asked.task, &granted)?;
    let at = Answer::At(Addr::new(0));
    let both = print_answer(text, line_number + 1, &asked.task, &at)?;
    let len = both.as_slice().len();
    Ok((len, emptied(both)))
}

// Returns the address of eight digits after a prefix; 0 if there are none.
fn address_after(text: &[u8], front: usize) -> Addr
    ensures { (addr : ℕ) (rest : List ℕ) → addr < 2 ^ 31
        → drop front text.now ≡ hex 8 addr ++ rest → result ≡ addr }
{
    let nowhere = Addr::new(0);
    if text.len() < 8 || text.len() - 8 < front {
        return nowhere;
    }
    let digits = &text[front..front + 8];
    if !are_hex_digits(digits) {
        return nowhere;
    }
    let number = hex_number(digits);
    if number >= 0x8000_0000 {
        return nowhere;
    }
    Addr::new(number as u32)
}

// Decides at the line that was parsed last, a grant, with a question after it. The area is placed at the address in the output for the
// question, if the machine allows that. The text is empty.
fn decide_pair(
    walk: &mut Walk,
    parsed: Result<(), Fault>,
    question: &[u8],
    left: &[u8],
    asked: &GrantQuestion,
    empty: Vec<u8>,
) -> Result<ServedLines, OutOfMemory>
    requires number { walk.old.number + 2 < 2 ^ 32 }
    requires in_range { IsLine (is_first walk.old.step) (filled walk.old.read parsed) }
    requires bounds { InBounds walk.old.step }
    requires question { IsQuestion question.now asked.now.task asked.now.area }
    requires empty { empty.items ≡ [] }
    ensures served { (line : List ℕ) → IsParsed walk.old parsed line
        → IsGrant walk.old.step line asked.now.task asked.now.area asked.now.variable → IfOk result
        (λ s. IsServed (line ∷ question.now ∷ []) walk.old s.text.items s.continues walk.new) }
    ensures decided { (line : List ℕ) → IsParsed walk.old parsed line
        → IsGrant walk.old.step line asked.now.task asked.now.area asked.now.variable → IfOk result
        (λ s. Decides (line ∷ question.now ∷ []) left.now walk.old s.text.items s.continues
        s.passes walk.new) }
    ensures number { IfOk result (λ s. walk.new.number ≡ walk.old.number + 2) }
    ensures bounds { (line : List ℕ) → IsParsed walk.old parsed line → IfOk result
        (λ s. InBounds walk.new.step) }
{
    let (len, emptied) = answered_len(walk.number(), asked, empty)?;
    let addr = address_after(left, len - 9);
    let granted = print_parsed(walk, parsed, &[addr], emptied)?;
    let answered = print_next(walk, question, &[], granted.text)?;
    let passes = begins(left, answered.text.as_slice());
    Ok(ServedLines {
        text: answered.text,
        continues: true,
        passes,
    })
}

// Decides at the line that was parsed last, a grant, and the first line of the rest of the script, which is the question for it. Returns None
// if it is none. The text is empty.
fn decide_shown(
    walk: &mut Walk,
    parsed: Result<(), Fault>,
    rest: &[u8],
    left: &[u8],
    asked: &GrantQuestion,
    empty: Vec<u8>,
) -> Result<Option<(usize, ServedLines)>, OutOfMemory>
    requires number { walk.old.number + 2 < 2 ^ 32 }
    requires in_range { IsLine (is_first walk.old.step) (filled walk.old.read parsed) }
    requires bounds { InBounds walk.old.step }
    requires empty { empty.items ≡ [] }
    ensures decided { (line : List ℕ) → IsParsed walk.old parsed line
        → IsGrant walk.old.step line asked.now.task asked.now.area asked.now.variable → IfOk result
        (λ o. MatchOption o ((walk.new ≡ walk.old)
        × IsOpen walk.old.number walk.old.step (line ∷ lines_of rest.now) left.now)
        (λ d. IsFoundShown line rest.now left.now walk.old d.0 d.1.text.items d.1.continues
        d.1.passes walk.new)) }
    ensures taken { IfOk result (λ o. IfSome o
        (λ d. (d.0 ≤ length rest.now) × (walk.new.number ≡ walk.old.number + 2))) }
    ensures bounds { (line : List ℕ) → IsParsed walk.old parsed line → IfOk result
        (λ o. InBounds walk.new.step) }
{
    let Some(end) = question_end(rest, asked) else {
        return Ok(None);
    };
    let served = decide_pair(walk, parsed, &rest[..end], left, asked, empty)?;
    Ok(Some((end, served)))
}

// Returns how many bytes are printed of a list that is granted, whose line has this number.
fn granted_len(alloc: Global, line_number: u32, task: &Name) -> Result<usize, OutOfMemory>
    ensures { IfOk result (λ n. n ≡ length (answer_text line_number task.now (no_bytes false))) }
{
    let granted = no_bytes(false);
    let text = print_answer(Vec::new(alloc), line_number, task, &granted)?;
    Ok(text.as_slice().len())
}

// Returns the number of bytes printed for a question with an address, on the line with this number.
fn located_len(alloc: Global, line_number: u32, task: &Name) -> Result<usize, OutOfMemory>
    ensures { IfOk result (λ n. n ≡ length (reply_line line_number task.now (one_line_text (At 0)))) }
{
    let at = Answer::At(Addr::new(0));
    let text = print_answer(Vec::new(alloc), line_number, task, &at)?;
    Ok(text.as_slice().len())
}

// Returns what follows a number of bytes of a text.
pub(crate) fn text_after(text: &[u8], front: usize) -> &[u8]
    ensures { result.now ≡ drop front text.now }
{
    if front < text.len() {
        &text[front..]
    } else {
        &[]
    }
}

// Appends an address.
fn pushed(mut hints: Vec<Addr>, addr: Addr) -> Result<Vec<Addr>, OutOfMemory>
    ensures { IfOk result (λ all. all.items ≡ hints.items ++ addr ∷ []) }
{
    hints.push(addr).map_err(|_| OutOfMemory)?;
    Ok(hints)
}

// Appends the addresses that an output shows for some names, from the line with this number on.
fn read_each(
    alloc: Global,
    line_number: u32,
    task: &Name,
    areas: &[Name],
    text: &[u8],
    hints: Vec<Addr>,
) -> Result<Vec<Addr>, OutOfMemory>
    requires { line_number + length areas.now < 2 ^ 32 }
    ensures { (addrs : List ℕ) (rest : List ℕ) → length addrs ≡ length areas.now
        → AllByRecursion (λ addr. addr < 2 ^ 31) addrs
        → text.now ≡ at_text line_number task.now addrs ++ rest
        → IfOk result (λ all. all.items ≡ hints.items ++ addrs) }
{
    let Some((_, areas)) = areas.split_first() else {
        return Ok(hints);
    };
    let len = located_len(alloc, line_number, task)?;
    let addr = address_after(text, len - 9);
    let all = pushed(hints, addr)?;
    read_each(
        alloc,
        line_number + 1,
        task,
        areas,
        text_after(text, len),
        all,
    )
}

// Returns the addresses that an output shows for the areas of a list, on the line with this number.
fn read_areas(
    alloc: Global,
    line_number: u32,
    left: &[u8],
    listed: &Listed,
) -> Result<Vec<Addr>, OutOfMemory>
    requires { line_number + 17 < 2 ^ 32 }
    ensures { IfOk result (λ hints. ReadsEach
        (drop (length (answer_text line_number listed.now.task (no_bytes false))) left.now)
        (line_number + 1) listed.now.task listed.now.areas hints.items) }
{
    let front = granted_len(alloc, line_number, &listed.task)?;
    let text = text_after(left, front);
    let areas = listed.areas.as_slice();
    read_each(
        alloc,
        line_number + 1,
        &listed.task,
        areas,
        text,
        Vec::new(alloc),
    )
}

// Decides at a list with questions after it. Its areas are placed at the addresses in the output for the questions, if the machine
// allows that. It is undecided if the run has another answer than the output, and the output has one that a list can have.
fn decide_list(
    alloc: Global,
    walk: &mut Walk,
    line: &[u8],
    rest: &[u8],
    left: &[u8],
    listed: &Listed,
) -> Result<ServedLines, OutOfMemory>
    requires number { walk.old.number + 18 < 2 ^ 32 }
    requires bounds { InBounds walk.old.step }
    requires list { IsList walk.old.step line.now listed.now.task listed.now.areas }
    requires questions { AskEach (lines_of rest.now) listed.now.task listed.now.areas }
    ensures served { IfOk result
        (λ s. IsServed (line.now ∷ []) walk.old s.text.items true walk.new) }
    ensures continues { IfOk result (λ s. s.continues ≡ true) }
    ensures opens { IfOk result
        (λ s. s.passes ≡ false → BeginsAnswered walk.old.number listed.now.task left.now
        → IsOpen walk.old.number walk.old.step (line.now ∷ lines_of rest.now) left.now) }
    ensures refuses { IfOk result
        (λ s. s.passes ≡ false
        → (BeginsAnswered walk.old.number listed.now.task left.now → ⊥)
        → DecidesBefore (line.now ∷ []) (lines_of rest.now) left.now walk.old s.text.items true
        false walk.new) }
    ensures decided { IfOk result
        (λ s. s.passes ≡ true → DecidesBefore (line.now ∷ []) (lines_of rest.now) left.now
        walk.old s.text.items true true walk.new) }
    ensures number { IfOk result (λ s. walk.new.number ≡ walk.old.number + 1) }
    ensures bounds { IfOk result (λ s. InBounds walk.new.step) }
{
    let hints = read_areas(alloc, walk.number(), left, listed)?;
    let printed = print_next(walk, line, hints.as_slice(), Vec::new(alloc))?;
    let passes = begins(left, printed.text.as_slice());
    Ok(ServedLines {
        text: printed.text,
        continues: true,
        passes,
    })
}

// Decides at the first line of a script if that is the last line and a list; nothing if the next lines do not ask for its areas.
fn decide_areas(
    alloc: Global,
    walk: &mut Walk,
    script: &[u8],
    end: usize,
    left: &[u8],
    listed: &Listed,
) -> Result<Option<DecidedLines>, OutOfMemory>
    requires number { walk.old.number + 18 < 2 ^ 32 }
    requires bounds { InBounds walk.old.step }
    requires within { end ≤ length script.now }
    requires lines { lines_of script.now
        ≡ take end script.now ∷ lines_of (drop (end + 1) script.now) }
    requires list { IsList walk.old.step (take end script.now) listed.now.task listed.now.areas }
    ensures decided { IfOk result
        (λ o. MatchOption o ((walk.new ≡ walk.old)
        × IsOpen walk.old.number walk.old.step (lines_of script.now) left.now)
        (λ d. IsFoundFirst script.now left.now walk.old d.taken d.served.text.items
        d.served.continues d.served.passes d.is_open walk.new)) }
    ensures taken { IfOk result (λ o. IfSome o
        (λ d. (0 < d.taken) × (d.taken ≤ length script.now + 1)
        × (walk.new.number ≤ walk.old.number + d.taken))) }
    ensures bounds { IfOk result (λ o. InBounds walk.new.step) }
{
    let rest = text_after(script, end + 1);
    if !asks_each(rest, &listed.task, listed.areas.as_slice()) {
        return Ok(None);
    }
    let line_number = walk.number();
    let mut served = decide_list(alloc, walk, &script[..end], rest, left, listed)?;
    let is_open = opens_list(alloc, line_number, &listed.task, left, served.passes)?;
    served.passes |= is_open;
    Ok(Some(DecidedLines {
        taken: end + 1,
        served,
        is_open,
    }))
}

/// Decides at the first line of a script, or at the first two. Returns None if the first is open. The text is empty: its memory is used for
/// what is printed.
pub fn decide(
    alloc: Global,
    walk: &mut Walk,
    script: &[u8],
    left: &[u8],
    empty: Vec<u8>,
) -> Result<Option<DecidedLines>, OutOfMemory>
    requires some { 0 < length script.now }
    requires number { walk.old.number + 18 < 2 ^ 32 }
    requires bounds { InBounds walk.old.step }
    requires empty { empty.items ≡ [] }
    ensures decided { IfOk result
        (λ o. MatchOption o (IsSameJob walk.old walk.new
        × IsOpen walk.old.number walk.old.step (lines_of script.now) left.now)
        (λ d. IsFoundFirst script.now left.now walk.old d.taken d.served.text.items
        d.served.continues d.served.passes d.is_open walk.new)) }
    ensures taken { IfOk result (λ o. IfSome o
        (λ d. (0 < d.taken) × (d.taken ≤ length script.now + 1)
        × (walk.new.number ≤ walk.old.number + d.taken))) }
    ensures bounds { IfOk result (λ o. InBounds walk.new.step) }
{
    let end = line_end(script);
    let line = &script[..end];
    let parsed = walk.parse(line);
    match parsed_kind(walk, &parsed) {
        GrantKind::Area(task, area, variable) => {
            let asked = GrantQuestion {
                task,
                area,
                variable,
            };
            let rest = text_after(script, end + 1);
            let Some((second, served)) = decide_shown(walk, parsed, rest, left, &asked, empty)?
            else {
                return Ok(None);
            };
            Ok(Some(DecidedLines {
                taken: end + 1 + (second + 1),
                served,
                is_open: false,
            }))
        }
        GrantKind::Closed => {
            let served = decide_line(walk, parsed, left, empty)?;
            Ok(Some(DecidedLines {
                taken: end + 1,
                served,
                is_open: false,
            }))
        }
        GrantKind::Areas(task, areas) => {
            let listed = Listed { task, areas };
            decide_areas(alloc, walk, script, end, left, &listed)
        }
        GrantKind::Several => Ok(None),
    }
}
