//! The printing of a run with explanations that can be switched off and on.

ghost use Rattle.std.specs.Prelude.{◌≡◌};
ghost use Rattle.area_history.specs.Chronicles.{HearsHistory, IsHistory};
ghost use Rattle.area_history.specs.Histories.{found_in, no_history, nothing_found};
ghost use Rattle.mvs_job.specs.Looking.{IsLooking, KeepsExplained};
ghost use Rattle.mvs_job.specs.NamedAddress.{no_lines};
ghost use Rattle.terminal_session.specs.Switching.{knows_switched, switched_history};

use area_history::{Chronicle, ReportFormat, TextReport};
use mvs_job::{
    Consumer, End, Explained, Job, LineEvent, Observer, Printer, Stop, Walk, print_line,
};
use mvs_model::name::Name;
use mvs_model::reason::Shortfall;
use mvs_model::refusal::Refusal;
use mvs_model::request::Request;
use mvs_model::watched::{Failed, Watched};
use std::alloc::Global;
use std::cell::Cell;
use std::io::Write;

/// Prints a run with explanations, and with what the history of the storage shows. While they are off, only the events are printed, but
/// it still keeps what it needs for later lines.
#[derive(Drop)]
pub struct Switched<'a> {
    explained: Explained,
    chronicle: Chronicle,
    is_on: &'a Cell<bool>,
}

impl<'a> Switched<'a> {
    /// Makes a printer that has seen no line. It allocates no memory.
    pub fn new(alloc: Global, is_on: &'a Cell<bool>) -> Switched<'a>
        ensures names { result.explained.lines ≡ no_lines }
        ensures history { IsHistory result.chronicle no_history }
    {
        Switched {
            explained: Explained::new(alloc),
            chronicle: Chronicle::new(alloc),
            is_on,
        }
    }
}

impl<'a> Observer for Switched<'a> {
    ghost heard = { λ old job t request refusal left new.
        KeepsExplained old.explained job t request refusal new.explained
        × HearsHistory old.chronicle job t request refusal new.chronicle };

    fn refused(
        &mut self,
        job: &Job,
        task: &Name,
        request: &Request,
        refusal: Refusal,
        left: &Shortfall,
    ) {
        self.explained.refused(job, task, request, refusal, left);
        self.chronicle.refused(job, task, request, refusal, left);
    }
}

impl<'a> Consumer for Switched<'a> {
    ghost piece = { switched_history };

    ghost knows = { knows_switched };

    ghost sees = { λ s step read. IsLooking step s.explained.lines read s.explained
        × (found_in s.chronicle.found ≡ nothing_found) };

    fn look(&mut self, walk: &Walk) {
        self.explained.look_at(walk);
        self.chronicle.begin_line();
    }

    fn entry<W: Write>(
        &mut self,
        writer: &mut Watched<W>,
        line_number: u32,
        line: &[u8],
        walk: &Walk,
        line_event: &LineEvent,
    ) -> Result<(), Stop> {
        self.chronicle.settle(walk, line_event);
        self.chronicle.keep(line_number, walk, line_event)?;
        if !self.is_on.get() {
            self.explained.keep(line_number, walk, line_event)?;
            print_line(writer, line_number, walk, line_event)?;
            return Ok(());
        }
        self.explained
            .entry(writer, line_number, line, walk, line_event)?;
        TextReport.print_findings(writer, self.chronicle.found())?;
        Ok(())
    }

    fn end<W: Write>(
        &mut self,
        writer: &mut Watched<W>,
        line_number: u32,
        walk: &Walk,
        end: End,
    ) -> Result<(), Failed> {
        Printer.end(writer, line_number, walk, end)
    }
}
