//! A run, and what the history of its storage shows about each line.

ghost use Rattle.std.specs.Prelude.{◌≡◌, List, ℕ};
ghost use Rattle.line_text.specs.Writing.{Prints};
ghost use Rattle.area_history.specs.Chronicles.{HearsHistory, IsHistory};
ghost use Rattle.area_history.specs.Histories.{found_in, history_from, no_history, nothing_found, with_history};

use crate::chronicle::Chronicle;
use crate::format::ReportFormat;
use mvs_job::{Consumer, End, Job, LineEvent, Observer, Stop, Walk};
use mvs_model::name::Name;
use mvs_model::reason::Shortfall;
use mvs_model::refusal::Refusal;
use mvs_model::request::Request;
use mvs_model::watched::{Failed, Watched};
use std::alloc::Global;
use std::io::Write;

/// Wraps a consumer. After the consumer's text for a line, it writes what the history shows about the line: who freed an address that is no
/// longer held, and who holds it now; who has the storage that is short; and what stays of
/// the areas of the tasks that ended. The format says how that is written.
#[derive(Drop)]
pub struct Historian<'a, C, F> {
    consumer: &'a mut C,
    format: F,
    chronicle: Chronicle,
}

impl<'a, C, F> Historian<'a, C, F> {
    /// Wraps a consumer, before the first line. It allocates no memory.
    pub fn new(alloc: Global, consumer: &'a mut C, format: F) -> Historian<'a, C, F>
        ensures consumer { result.consumer ≡ consumer.entry }
        ensures format { result.format ≡ format }
        ensures chronicle { IsHistory result.chronicle no_history }
    {
        Historian {
            consumer,
            format,
            chronicle: Chronicle::new(alloc),
        }
    }
}

impl<'a, C: Consumer, F: ReportFormat> Observer for Historian<'a, C, F> {
    ghost heard = { λ old job t request refusal left new.
        (new.consumer.ghost_name ≡ old.consumer.ghost_name)
        × C.heard old.consumer.now job t request refusal left new.consumer.now
        × HearsHistory old.chronicle job t request refusal new.chronicle };

    fn refused(
        &mut self,
        job: &Job,
        task: &Name,
        request: &Request,
        refusal: Refusal,
        left: &Shortfall,
    ) {
        self.consumer.refused(job, task, request, refusal, left);
        self.chronicle.refused(job, task, request, refusal, left);
    }
}

impl<'a, C: Consumer, F: ReportFormat> Consumer for Historian<'a, C, F> {
    ghost piece = { with_history F.findings C.piece };

    ghost knows = { λ first. record {
      has = λ now entries. (now.consumer.ghost_name ≡ first.consumer.ghost_name)
          × (C.knows first.consumer.now).has now.consumer.now entries
          × IsHistory now.chronicle (history_from no_history entries);
      had = λ now entries. now.consumer.ghost_name ≡ first.consumer.ghost_name;
    } };

    ghost sees = { λ s step read. C.sees s.consumer.now step read × (found_in s.chronicle.found ≡ nothing_found) };

    fn look(&mut self, walk: &Walk) {
        self.consumer.look(walk);
        self.chronicle.begin_line();
    }

    fn entry<W: Write>(
        &mut self,
        writer: &mut Watched<W>,
        line_number: u32,
        line: &[u8],
        walk: &Walk,
        line_event: &LineEvent,
    ) -> Result<(), Stop> {
        self.chronicle.settle(walk, line_event);
        self.chronicle.keep(line_number, walk, line_event)?;
        self.consumer
            .entry(writer, line_number, line, walk, line_event)?;
        self.format.print_findings(writer, &self.chronicle.found)?;
        Ok(())
    }

    fn end<W: Write>(
        &mut self,
        writer: &mut Watched<W>,
        line_number: u32,
        walk: &Walk,
        end: End,
    ) -> Result<(), Failed> {
        self.consumer.end(writer, line_number, walk, end)
    }
}
