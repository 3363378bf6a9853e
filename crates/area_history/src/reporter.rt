//! A run with a report of leaks at the end of each step.

ghost use Rattle.std.specs.Prelude.{◌≡◌, ◌≤◌, ◌++◌, List, ℕ, drop, false, length, take};
ghost use Rattle.line_text.specs.Writing.{Prints};
ghost use Rattle.area_history.specs.Accounts.{IsLedger, IsLooked, IsObserved, Sees, closes_step};
ghost use Rattle.mvs_job.specs.LineEvents.{WalkValue, events_of_line};
ghost use Rattle.std.specs.List.{list_any};
ghost use Rattle.area_history.specs.Ledgers.{is_step_end, no_step};
ghost use Rattle.area_history.specs.Reporting.{Knows, after_first_line, with_leaks};

use crate::account::{Account, Leftovers};
use crate::format::ReportFormat;
use crate::texts::line_len;
use line_text::write_all;
use mvs_job::{Consumer, End, Job, LineEvent, Observer, Stop, Walk};
use mvs_model::name::Name;
use mvs_model::reason::Shortfall;
use mvs_model::refusal::Refusal;
use mvs_model::request::Request;
use mvs_model::watched::{Failed, Watched};
use std::alloc::Global;
use std::io::Write;

/// A consumer, and what it writes with a report of leaks at the end of each step.
#[derive(Drop)]
pub struct Reporter<'a, C, F> {
    consumer: &'a mut C,
    format: F,
    alloc: Global,
    account: Account,
    has_leaked: bool,
}

// Returns whether a step ends with a line.
fn ends_step(line_event: &LineEvent) -> bool
    ensures { (number : ℕ) (walk : WalkValue)
        → result ≡ list_any is_step_end (events_of_line number walk line_event.now) }
{
    match line_event {
        LineEvent::StepBegan { ended, .. } => ended.is_some(),
        LineEvent::Nothing | LineEvent::Answered { .. } | LineEvent::Faulted(_) => false,
    }
}

// Returns whether a step ends with the last entry. It does not where memory is exhausted.
fn closes_step(end: End) -> bool
    ensures { result ≡ closes_step end }
{
    match end {
        End::Closed(ended) => ended.is_some(),
        End::Exhausted(_) => false,
    }
}

// Returns the length of the first line of a text, with its newline.
fn first_line_len(text: &[u8]) -> usize
    ensures within { result ≤ length text.now }
    ensures cut { (more : List ℕ) → after_first_line more text.now
        ≡ take result text.now ++ more ++ drop result text.now }
{
    let len = line_len(text);
    if len < text.len() { len + 1 } else { len }
}

// Prints a text, and a report of leaks after its first line.
fn print_with_report<W: Write, F: ReportFormat>(
    writer: &mut Watched<W>,
    text: &[u8],
    format: &F,
    left: &Leftovers,
) -> Result<(), Failed>
    ensures { Prints W.contents writer.old writer.new result
        (after_first_line (F.report left.now) text.now) }
{
    let len = first_line_len(text);
    write_all(writer, &text[..len])?;
    format.print(writer, left)?;
    write_all(writer, &text[len..])
}

impl<'a, C, F> Reporter<'a, C, F> {
    /// Wraps a consumer, before the first line. It allocates no memory.
    pub fn new(alloc: Global, consumer: &'a mut C, format: F) -> Reporter<'a, C, F>
        ensures consumer { result.consumer ≡ consumer.entry }
        ensures format { result.format ≡ format }
        ensures account { IsLedger result.account no_step }
        ensures leaked { result.has_leaked ≡ false }
    {
        Reporter {
            consumer,
            format,
            alloc,
            account: Account::new(alloc),
            has_leaked: false,
        }
    }

    /// Returns the consumer.
    pub(crate) fn consumer(&self) -> &C
        ensures { result.now ≡ self.now.consumer.now }
    {
        self.consumer
    }

    /// Returns whether a step ended with a leak.
    pub fn has_leaked(&self) -> bool
        ensures { result ≡ self.now.has_leaked }
    {
        self.has_leaked
    }
}

impl<'a, C: Consumer, F: ReportFormat> Observer for Reporter<'a, C, F> {
    ghost heard = { λ old job t request refusal left new.
        (new.consumer.ghost_name ≡ old.consumer.ghost_name)
        × C.heard old.consumer.now job t request refusal left new.consumer.now
        × IsObserved old.account job t request refusal new.account
        × (new.has_leaked ≡ old.has_leaked) };

    fn refused(
        &mut self,
        job: &Job,
        task: &Name,
        request: &Request,
        refusal: Refusal,
        left: &Shortfall,
    ) {
        self.consumer.refused(job, task, request, refusal, left);
        self.account.refused(job, task, request, refusal);
    }
}

impl<'a, C: Consumer, F: ReportFormat> Consumer for Reporter<'a, C, F> {
    ghost piece = { with_leaks F.report C.piece };

    ghost knows = { λ first. record {
      has = λ now entries. (now.consumer.ghost_name ≡ first.consumer.ghost_name)
          × (C.knows first.consumer.now).has now.consumer.now entries
          × Knows first.has_leaked now.has_leaked now.account entries;
      had = λ now entries. now.consumer.ghost_name ≡ first.consumer.ghost_name;
    } };

    ghost sees = { λ s step read. C.sees s.consumer.now step read × Sees s.account step read };

    fn look(&mut self, walk: &Walk) {
        self.consumer.look(walk);
        self.account.look(walk);
    }

    fn entry<W: Write>(
        &mut self,
        writer: &mut Watched<W>,
        line_number: u32,
        line: &[u8],
        walk: &Walk,
        line_event: &LineEvent,
    ) -> Result<(), Stop> {
        self.account.keep(line_number, walk, line_event)?;
        if !ends_step(line_event) || !self.account.found.is_some() {
            return self
                .consumer
                .entry(writer, line_number, line, walk, line_event);
        }
        let mut text = Watched::new(Vec::new(self.alloc));
        let Ok(()) = self
            .consumer
            .entry(&mut text, line_number, line, walk, line_event)
        else {
            return Err(Stop::Memory);
        };
        let text = text.into_inner();
        self.has_leaked = true;
        print_with_report(writer, &text, &self.format, &self.account.found)?;
        Ok(())
    }

    fn end<W: Write>(
        &mut self,
        writer: &mut Watched<W>,
        line_number: u32,
        walk: &Walk,
        end: End,
    ) -> Result<(), Failed> {
        self.consumer.end(writer, line_number, walk, end)?;
        if !closes_step(end) {
            return Ok(());
        }
        self.account.settle(walk);
        if !self.account.found.is_some() {
            return Ok(());
        }
        self.has_leaked = true;
        self.format.print(writer, &self.account.found)
    }
}
