//! Runs a script, and reports each line that was not executed to an observer.

ghost use Rattle.std.specs.Prelude.{◌≡◌, ◌<◌, ◌≤◌, ◌+◌, ◌^◌, ◌∷◌, [], ℕ, List, Option, length, true, is_some, not, Err, OnOk, IfOk, IfErr, IsErrOf};
ghost use Rattle.std.specs.List.{list_all};
ghost use Rattle.mvs_model.specs.Numbers.{most_script_bytes};
ghost use Rattle.mvs_job.specs.Streams.{PrintedUpTo};
ghost use Rattle.mvs_job.specs.Consuming.{LeavesText};
ghost use Rattle.mvs_job.specs.Strict.{Grows, ObservesFront, Observes, PrintsStrictly, RunsObserved, Skipped, all_skipped, is_of_served, skipped_for, why_unserved};
ghost use Rattle.mvs_job.specs.LineEvents.{IsAvailable, events_of_line};

use crate::consumer::{Consumer, End};
use crate::driver::run_lines;
use crate::job::Job;
use crate::observer::Observer;
use crate::printer::Printer;
use crate::printing::Stop;
use crate::walk::{LineEvent, Walk};
use mvs_model::answer::Answer;
use mvs_model::name::Name;
use mvs_model::outcome::Outcome;
use mvs_model::reason::Shortfall;
use mvs_model::refusal::Refusal;
use mvs_model::request::Request;
use mvs_model::want::Placement;
use mvs_model::watched::{Failed, Watched};
use std::alloc::Global;
use std::io::Write;

/// Why a line was not executed.
#[derive(Clone, Copy, Debug, PartialEq, Eq)]
pub enum SkipReason {
    /// Its task was not active.
    NotRun,
    /// A name in it was not set.
    NoName,
}

/// An observer of lines that were not executed.
pub trait SkipObserver {
    // The lines that were reported, where that is known.
    ghost heard: { Self → Option (List Skipped) };

    /// Is called for a line, with its text without the newline and its number. The job is as before the line.
    fn on_skipped(&mut self, walk: &Walk, line_number: u32, line: &[u8], why: SkipReason)
        ensures { Grows (heard self.old) (heard self.new)
            (record { number = line_number; line = line.now; why = why } ∷ []) };
}

/// How a job ended, and whether each line was executed.
#[derive(Clone, Copy, Debug, PartialEq, Eq)]
pub struct StrictOutcome {
    pub outcome: Outcome,
    pub all_served: bool,
}

// Returns why a statement with this answer was not executed, if it was not.
fn why_unserved(answer: &Answer) -> Option<SkipReason>
    ensures { result ≡ why_unserved answer.now }
{
    match answer {
        Answer::NotRun => Some(SkipReason::NotRun),
        Answer::NoName => Some(SkipReason::NoName),
        Answer::At(_)
        | Answer::Rc0
        | Answer::Granted(_)
        | Answer::Rc4
        | Answer::Cell
        | Answer::NoCell
        | Answer::Attached
        | Answer::Ended
        | Answer::Done
        | Answer::Data(_)
        | Answer::Abended(_)
        | Answer::Subpools
        | Answer::Map => None,
    }
}

// Returns why a line was not executed, by its events, if it was not.
fn why_of(walk: &Walk, line_event: &LineEvent) -> Option<SkipReason>
    requires { IsAvailable walk.now line_event.now }
    ensures served { (number : ℕ)
        → list_all is_of_served (events_of_line number walk.now line_event.now) ≡ not (is_some result) }
    ensures skipped { (number : ℕ) (lines : ℕ → List ℕ)
        → all_skipped lines (events_of_line number walk.now line_event.now)
        ≡ skipped_for number (lines number) result }
{
    match line_event {
        LineEvent::Answered { answer, .. } => why_unserved(answer),
        LineEvent::Nothing | LineEvent::StepBegan { .. } | LineEvent::Faulted(_) => None,
    }
}

/// A consumer with an observer of the lines that were not executed.
#[derive(Drop)]
pub struct Strict<'a, C, H> {
    consumer: &'a mut C,
    hearer: &'a mut H,
    all_served: bool,
}

impl<'a, C, H> Strict<'a, C, H> {
    /// Wraps a consumer, before the first line.
    pub fn new(consumer: &'a mut C, hearer: &'a mut H) -> Strict<'a, C, H>
        ensures consumer { result.consumer ≡ consumer.entry }
        ensures hearer { result.hearer ≡ hearer.entry }
        ensures all_served { result.all_served ≡ true }
    {
        Strict {
            consumer,
            hearer,
            all_served: true,
        }
    }

    /// Returns whether each line of the entries was executed.
    pub fn is_all_served(&self) -> bool
        ensures { result ≡ self.now.all_served }
    {
        self.all_served
    }
}

impl<'a, C: Consumer, H: SkipObserver> Observer for Strict<'a, C, H> {
    ghost heard = { λ old job t request refusal left new.
        C.heard old.consumer.now job t request refusal left new.consumer.now
        × (new.hearer ≡ old.hearer) × (new.all_served ≡ old.all_served) };

    fn refused(
        &mut self,
        job: &Job,
        task: &Name,
        request: &Request,
        refusal: Refusal,
        left: &Shortfall,
    ) {
        self.consumer.refused(job, task, request, refusal, left);
    }
}

impl<'a, C: Consumer, H: SkipObserver> Consumer for Strict<'a, C, H> {
    ghost piece = { C.piece };

    ghost knows = { λ first. record {
      has = λ now entries. (now.hearer.ghost_name ≡ first.hearer.ghost_name)
          × (C.knows first.consumer.now).has now.consumer.now entries
          × Observes first.all_served now.all_served (H.heard first.hearer.now)
          (H.heard now.hearer.now) entries;
      had = λ now entries. (now.hearer.ghost_name ≡ first.hearer.ghost_name)
          × Observes first.all_served now.all_served (H.heard first.hearer.now)
          (H.heard now.hearer.now) entries;
    } };

    ghost sees = { λ s step read. C.sees s.consumer.now step read };

    fn look(&mut self, walk: &Walk) {
        self.consumer.look(walk);
    }

    fn entry<W: Write>(
        &mut self,
        writer: &mut Watched<W>,
        line_number: u32,
        line: &[u8],
        walk: &Walk,
        line_event: &LineEvent,
    ) -> Result<(), Stop> {
        self.consumer
            .entry(writer, line_number, line, walk, line_event)?;
        if let Some(why) = why_of(walk, line_event) {
            self.hearer.on_skipped(walk, line_number, line, why);
            self.all_served = false;
        }
        Ok(())
    }

    fn end<W: Write>(
        &mut self,
        writer: &mut Watched<W>,
        line_number: u32,
        walk: &Walk,
        end: End,
    ) -> Result<(), Failed> {
        self.consumer.end(writer, line_number, walk, end)
    }
}

/// Runs a script, gives each entry of the run to a consumer, and reports each line that was not executed. The script has
/// at most 16,777,215 bytes.
pub fn run_observed<W: Write, H: SkipObserver, C: Consumer>(
    alloc: Global,
    script: &[u8],
    writer: &mut Watched<W>,
    placement: Placement,
    consumer: &mut C,
    hearer: &mut H,
) -> Result<StrictOutcome, Stop>
    requires script { length script.now ≤ most_script_bytes }
    requires new { (C.knows consumer.old).has consumer.old [] }
    // What is written is what the consumer writes for a trace of the script, in which each line was executed, or not; and what is reported
    // is each line that was not, by its number, its text and the cause, in their order, and nothing else.
    ensures run { IfOk result
        (λ end. RunsObserved C.piece (W.contents writer.old.inner) (W.contents writer.new.inner)
        (H.heard hearer.old) (H.heard hearer.new) script.now end.outcome end.all_served) }
    // Otherwise it is what a run writes that stops so. Each line before the stop that was not executed is reported.
    ensures stop { IfErr result
        (λ stop. LeavesText C.piece (W.contents writer.old.inner) (W.contents writer.new.inner)
        script.now (Err stop)) }
    ensures heard { IfErr result
        (λ stop. ObservesFront (H.heard hearer.old) (H.heard hearer.new) script.now) }
    ensures ok { OnOk result (writer.new.failed ≡ writer.old.failed) }
    ensures write { IsErrOf result Stop.Write → writer.new.failed ≡ true }
{
    let mut strict = Strict::new(consumer, hearer);
    let outcome = run_lines(alloc, script, writer, placement, &mut strict)?;
    Ok(StrictOutcome {
        outcome,
        all_served: strict.all_served,
    })
}

/// Runs a script, prints what it prints, and reports each line that was not executed. It takes 16,777,215 bytes at most.
pub fn run_strictly<W: Write, H: SkipObserver>(
    alloc: Global,
    script: &[u8],
    writer: &mut Watched<W>,
    placement: Placement,
    hearer: &mut H,
) -> Result<StrictOutcome, Stop>
    requires { length script.now ≤ most_script_bytes }
    // What is written is the printing of a run of the script, in which each line was executed, or not; and what is reported is each line that
    // was not, by its number, its text and the cause, in their order, and nothing else.
    ensures run { IfOk result
        (λ end. PrintsStrictly (W.contents writer.old.inner) (W.contents writer.new.inner)
        (H.heard hearer.old) (H.heard hearer.new) script.now end.outcome end.all_served) }
    // Otherwise it is the beginning of such a printing; if memory is exhausted, all of it before the reply to a statement that needs memory.
    ensures stop { IfErr result
        (λ stop. PrintedUpTo stop (W.contents writer.old.inner) (W.contents writer.new.inner)
        script.now) }
    // And what is reported is each of the lines before that was not executed.
    ensures heard { IfErr result
        (λ stop. ObservesFront (H.heard hearer.old) (H.heard hearer.new) script.now) }
    ensures ok { OnOk result (writer.new.failed ≡ writer.old.failed) }
    ensures write { IsErrOf result Stop.Write → writer.new.failed ≡ true }
{
    run_observed(alloc, script, writer, placement, &mut Printer, hearer)
}
