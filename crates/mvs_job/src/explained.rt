//! The printing of a run with explanations.

ghost use Rattle.std.specs.Prelude.{◌≡◌, ◌<◌, ◌+◌, ◌^◌, ◌∷◌, [], ℕ, true, IfOk, MatchResult, OnErr, OnOk};
ghost use Rattle.std.specs.Option.{option_and_then};
ghost use Rattle.line_text.specs.Writing.{Prints};
ghost use Rattle.mvs_job.specs.Looking.{IsLooking, KeepsExplained, knows_set};
ghost use Rattle.mvs_model.specs.Memory.{StopsForMemory};
ghost use Rattle.mvs_job.specs.Explained.{explained};
ghost use Rattle.mvs_job.specs.Explaining.{IsExplanationText, explanation_text, text_of_event};
ghost use Rattle.mvs_job.specs.Granting.{granted_facts, reports_grant};
ghost use Rattle.mvs_job.specs.NamedAddress.{IsNamingOf, RecordsOrigins, SetsSome, line_address, reason_address, no_lines, names_after};
ghost use Rattle.mvs_job.specs.LineEvents.{IsAvailable, ServesAs, ended, events_of_line};
ghost use Rattle.mvs_job.specs.Why.{OfNext, line_reason};

use crate::consumer::{Consumer, End};
use crate::ends::print_frees;
use crate::job::Job;
use crate::name_origins::{NameOrigins, NamedAddress, print_named, reason_address};
use crate::observer::Observer;
use crate::printing::{Stop, print_closing, print_ended, print_line};
use crate::walk::{LineEvent, OutOfMemoryAt, Walk};
use crate::why::Why;
use mvs_model::error::OutOfMemory;
use mvs_model::fact::Fact;
use mvs_model::name::Name;
use mvs_model::place::Addr;
use mvs_model::reason::{LineReason, Shortfall};
use mvs_model::refusal::Refusal;
use mvs_model::request::Request;
use mvs_model::watched::{Failed, Watched};
use request_forms::OwnedSubpool;
use std::alloc::Global;
use std::io::Write;

/// Prints a run with explanations: after the events of a line come lines that begin with `*`. It keeps what it has seen of a line,
/// in large buffers, and which lines have set the names of the step.
#[derive(Drop)]
pub struct Explained {
    pub(crate) why: Why,
    /// Why the line was not executed as it asks.
    pub(crate) reason: Option<LineReason>,
    pub(crate) naming: Option<NamedAddress>,
    pub(crate) lines: NameOrigins,
}

/// The explanations of a line, as values.
#[derive(Clone, Copy)]
pub struct Explanation<'a> {
    /// Why the line was not executed as it asks.
    pub reason: Option<LineReason>,
    /// The address in that reason.
    pub address: Option<Addr>,
    /// The name that has this address.
    pub named: Option<NamedAddress>,
    /// If the line ended a task: the subpools that tasks owned before it.
    pub subpools: &'a [OwnedSubpool],
    /// What a granted request changed.
    pub effects: &'a [Fact],
}

// Returns the address that the reason of a line is about.
fn line_address(why: &Why, reason: &Option<LineReason>) -> Option<Addr>
    ensures { result ≡ option_and_then (line_address why.now.request) reason.now }
{
    match reason {
        Some(LineReason::Refused(reason)) => why.address(reason),
        Some(LineReason::NotSet(_)) | None => None,
    }
}

impl Observer for Explained {
    ghost heard = { λ old job t request refusal left new. KeepsExplained old job t request refusal new };

    fn refused(
        &mut self,
        job: &Job,
        task: &Name,
        request: &Request,
        refusal: Refusal,
        left: &Shortfall,
    ) {
        self.why.refused(job, task, request, refusal, left);
        self.naming = self.name(job);
    }
}

impl Consumer for Explained {
    ghost piece = { explained };

    ghost knows = { knows_set };

    ghost sees = { λ s step read. IsLooking step s.lines read s };

    fn look(&mut self, walk: &Walk) {
        self.look_at(walk);
    }

    fn entry<W: Write>(
        &mut self,
        writer: &mut Watched<W>,
        line_number: u32,
        line: &[u8],
        walk: &Walk,
        line_event: &LineEvent,
    ) -> Result<(), Stop> {
        self.keep(line_number, walk, line_event)?;
        self.print(writer, line_number, walk, line_event)?;
        Ok(())
    }

    fn end<W: Write>(
        &mut self,
        writer: &mut Watched<W>,
        line_number: u32,
        _walk: &Walk,
        end: End,
    ) -> Result<(), Failed> {
        match end {
            End::Closed(ended) => print_closing(writer, line_number, ended),
            End::Exhausted(ended) => print_ended(writer, ended),
        }
    }
}

impl Explained {
    /// Makes a printer that has seen no line. It allocates no memory.
    pub fn new(alloc: Global) -> Explained
        ensures { result.lines ≡ no_lines }
    {
        Explained {
            why: Why::new(),
            reason: None,
            naming: None,
            lines: NameOrigins::new(alloc),
        }
    }

    // Returns the name that has the address in the reason of a request.
    fn name(&self, job: &Job) -> Option<NamedAddress>
        ensures { IsNamingOf job.now self.now.lines
            (option_and_then (reason_address self.now.why.request) self.now.why.reason) result }
    {
        let reason = self.why.reason.as_ref()?;
        let addr = reason_address(&self.why.request, reason)?;
        self.lines.naming(job, addr)
    }

    /// Looks at the next line, which is parsed, before it is executed, for the explanations after it.
    pub fn look_at(&mut self, walk: &Walk)
        ensures looking { IsLooking walk.now.step self.old.lines walk.now.read self.new }
        ensures lines { self.new.lines ≡ self.old.lines }
    {
        self.naming = None;
        self.why.look(walk);
    }

    /// Keeps why a line was not executed as it asks, and the names that it set. It allocates memory if the line is a granted request
    /// that sets a name.
    pub fn keep(
        &mut self,
        number: u32,
        walk: &Walk,
        line_event: &LineEvent,
    ) -> Result<(), OutOfMemory>
        requires { IsAvailable walk.now line_event.now }
        ensures why { self.new.why ≡ self.old.why }
        ensures naming { self.new.naming ≡ self.old.naming }
        ensures reason { self.new.reason
            ≡ line_reason walk.now.step walk.now.read self.old.why.reason line_event.now }
        ensures lines { OnOk result
            (self.new.lines ≡ names_after number self.old.lines walk.now.read
            (events_of_line number walk.now line_event.now)) }
        ensures err { OnErr result (SetsSome walk.now.read
            × (reports_grant (events_of_line number walk.now line_event.now) ≡ true)) }
    {
        self.reason = self.why.line_reason(walk, line_event);
        self.lines.keep(number, walk.read(), line_event)
    }

    /// Finds what the line changed, if its request was granted: `explanation` has it.
    pub fn find_effects(&mut self, walk: &Walk, line_event: &LineEvent)
        ensures effects { (number : ℕ) → IsAvailable walk.now line_event.now
            → self.new.why ≡ record self.old.why {
              facts = granted_facts self.old.why.before walk.now.read
                  (events_of_line number walk.now line_event.now) walk.now.step;
            } }
        ensures kept { (self.new.reason ≡ self.old.reason) × (self.new.naming ≡ self.old.naming)
            × (self.new.lines ≡ self.old.lines) }
    {
        self.why.find_effects(walk, line_event);
    }

    /// Returns the explanations of the line, as values: what `keep` and `find_effects` found.
    pub fn explanation(&self) -> Explanation<'_>
        ensures reason { result.reason ≡ self.now.reason }
        ensures address { result.address
            ≡ option_and_then (line_address self.now.why.request) self.now.reason }
        ensures named { result.named ≡ self.now.naming }
        ensures subpools { result.subpools.now ≡ self.now.why.subpools }
        ensures effects { result.effects.now ≡ self.now.why.facts }
    {
        Explanation {
            reason: self.reason,
            address: line_address(&self.why, &self.reason),
            named: self.naming,
            subpools: self.why.subpools(),
            effects: self.why.effects(),
        }
    }

    /// Looks at a line, executes it, and keeps why it was refused.
    pub(crate) fn serve(&mut self, walk: &mut Walk, line: &[u8]) -> Result<LineEvent, OutOfMemoryAt>
        requires { walk.old.number + 1 < 2 ^ 32 }
        ensures executed { MatchResult result (λ line_event. ServesAs walk.old line.now line_event walk.new)
            (λ stopped. StopsForMemory walk.old.number walk.old.step (line.now ∷ [])
            (ended stopped.ended)) }
        ensures lines { IfOk result
            (λ line_event. RecordsOrigins walk.old self.old.lines line.now walk.new line_event self.new.lines) }
        ensures explained { IfOk result
            (λ line_event. let events = events_of_line walk.old.number walk.new line_event in
            IsExplanationText walk.old.step self.old.lines line.now events walk.new.step
            (explanation_text self.new walk.new.read events walk.new.step)) }
        ensures reason { IfOk result
            (λ line_event. OfNext walk.old.step line.now (events_of_line walk.old.number walk.new line_event)
            self.new.reason) }
        ensures full_answer { IfOk result (IsAvailable walk.new) }
        ensures number { walk.new.number ≡ walk.old.number + 1 }
    {
        let number = walk.number();
        self.lines.begin(walk);
        let parsed = walk.parse(line);
        self.look_at(walk);
        let line_event = walk.execute(parsed, &[], self)?;
        self.keep(number, walk, &line_event)?;
        Ok(line_event)
    }

    /// Prints why a line with these events was refused, the name that has the address of the reason, the subpools that were freed
    /// if it ended a task, and what it changed if it was granted.
    pub fn print_explanation<W: Write>(
        &mut self,
        walk: &Walk,
        line_event: &LineEvent,
        writer: &mut Watched<W>,
    ) -> Result<(), Failed>
        requires { IsAvailable walk.now line_event.now }
        ensures printed { (number : ℕ)
            → Prints W.contents writer.old writer.new result
            (explanation_text self.old walk.now.read (events_of_line number walk.now line_event.now) walk.now.step) }
        ensures lines { self.new.lines ≡ self.old.lines }
    {
        self.why.print(writer, walk.read(), &self.reason)?;
        print_named(writer, &self.naming)?;
        print_frees(writer, walk, line_event, self.why.subpools.as_slice())?;
        self.why.print_done(writer, walk, line_event)
    }

    // Prints the events of a line, and after them its explanations, if it has no fault.
    fn print<W: Write>(
        &mut self,
        writer: &mut Watched<W>,
        number: u32,
        walk: &Walk,
        line_event: &LineEvent,
    ) -> Result<(), Failed>
        requires { IsAvailable walk.now line_event.now }
        ensures printed { Prints W.contents writer.old writer.new result
            (text_of_event self.old number walk.now line_event.now) }
        ensures lines { self.new.lines ≡ self.old.lines }
    {
        print_line(writer, number, walk, line_event)?;
        if let LineEvent::Faulted(_) = line_event {
            return Ok(());
        }
        self.print_explanation(walk, line_event, writer)
    }
}
