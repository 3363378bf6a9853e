//! Why the line of a job is refused, and what it did otherwise.

ghost use Rattle.std.specs.Prelude.{◌≡◌, [], ℕ, None, Some};
ghost use Rattle.line_text.specs.Writing.{Prints};
ghost use Rattle.mvs_job.specs.Explaining.{reason_part};
ghost use Rattle.mvs_job.specs.Granting.{before_line, facts_after, granted_facts, granted_text, reports_grant};
ghost use Rattle.mvs_job.specs.LineEvents.{IsAvailable, WalkValue, events_of_line};
ghost use Rattle.mvs_job.specs.NamedAddress.{reason_address};
ghost use Rattle.mvs_job.specs.Why.{IsSurvey, KeepsWhy, line_reason, unset_of};

use crate::copying_lines::copy_request;
use crate::ends::{OwnedSubpools, collect_owned_subpools, no_subpools};
use crate::granting::{
    Baseline, Facts, before_request, is_grant, no_facts, print_facts, put_facts,
};
use crate::job::Job;
use crate::name_origins::reason_address;
use crate::observer::Observer;
use crate::walk::{LineEvent, Walk};
use explanation::print_reason;
use mvs_model::answer::Answer;
use mvs_model::fact::Fact;
use mvs_model::line::{Line, SourceRequest, Statement};
use mvs_model::name::Name;
use mvs_model::place::Addr;
use mvs_model::reason::{LineReason, Reason, Shortfall};
use mvs_model::refusal::{Consequence, Refusal};
use mvs_model::request::Request;
use mvs_model::table::reply_to;
use mvs_model::watched::{Failed, Watched};
use request_forms::OwnedSubpool;
use std::io::Write;

// Returns what is looked up before a line, to report its changes.
fn before_line(job: &Job, read: &Line) -> Option<Baseline>
    ensures { result ≡ before_line (Some job.now) read.now }
{
    match read {
        Line::Statement(task, Statement::Request(written)) => before_request(job, task, written),
        Line::Statement(
            _,
            Statement::Region { .. }
            | Statement::Where(_)
            | Statement::ReportSubpools
            | Statement::ReportMap,
        )
        | Line::Nothing => None,
    }
}

/// Returns whether the events of a line say that a request was granted.
pub(crate) fn reports_grant(line_event: &LineEvent) -> bool
    ensures { (number : ℕ) (walk : WalkValue) → IsAvailable walk line_event.now
        → result ≡ reports_grant (events_of_line number walk line_event.now) }
{
    match line_event {
        LineEvent::Answered { answer, .. } => is_grant(answer),
        LineEvent::Nothing | LineEvent::StepBegan { .. } | LineEvent::Faulted(_) => false,
    }
}

// Returns the name that is not set in the last line.
fn unset(walk: &Walk) -> Option<LineReason>
    ensures { result ≡ unset_of walk.now.step walk.now.read }
{
    let job = walk.job()?;
    let name = match walk.read() {
        Line::Statement(_, Statement::Request(written)) => job.unset(written),
        Line::Statement(_, Statement::Where(name)) => Some(*name),
        Line::Statement(
            _,
            Statement::Region { .. } | Statement::ReportSubpools | Statement::ReportMap,
        )
        | Line::Nothing => None,
    };
    Some(LineReason::NotSet(name?))
}

/// Finds why a line is refused. It looks at the line before it is executed, and observes the refusal of its request.
/// It has buffers for a request and its effects, which are large.
#[derive(Drop)]
pub struct Why {
    /// The request that was refused last.
    pub(crate) request: Request,
    pub(crate) facts: Facts,
    /// What is looked up before the request, to report its changes.
    pub(crate) before: Option<Baseline>,
    /// The subpools that tasks own before a task ends.
    pub(crate) subpools: OwnedSubpools,
    /// Why the request was refused.
    pub(crate) reason: Option<Reason>,
}

impl Observer for Why {
    ghost heard = { λ old job t request refusal left new. KeepsWhy old job t request refusal new };

    fn refused(
        &mut self,
        job: &Job,
        task: &Name,
        request: &Request,
        refusal: Refusal,
        left: &Shortfall,
    ) {
        self.reason = Some(job.step().details(task, request, refusal, left));
        self.request = copy_request(request);
        if let Consequence::Abend(_) = reply_to(request, refusal) {
            collect_owned_subpools(job, task, &mut self.subpools);
        }
    }
}

impl Why {
    /// Makes an explainer that has seen no line.
    pub fn new() -> Why {
        Why {
            request: Request::Return,
            facts: no_facts(),
            before: None,
            subpools: no_subpools(),
            reason: None,
        }
    }

    /// Looks at the next line, which is parsed, before it is executed, for the explanations after it.
    pub fn look(&mut self, walk: &Walk)
        ensures before { self.new.before ≡ before_line walk.now.step walk.now.read }
        ensures subpools { IsSurvey walk.now.step walk.now.read self.new.subpools }
        ensures reason { self.new.reason ≡ None }
    {
        self.reason = None;
        self.before = None;
        let Some(job) = walk.job() else {
            return;
        };
        self.before = before_line(job, walk.read());
        if let Line::Statement(task, Statement::Request(SourceRequest::Return)) = walk.read() {
            collect_owned_subpools(job, task, &mut self.subpools);
        }
    }

    /// Returns why the line was not executed as it asks, by its events.
    pub fn line_reason(&self, walk: &Walk, line_event: &LineEvent) -> Option<LineReason>
        ensures { result ≡ line_reason walk.now.step walk.now.read self.now.reason line_event.now }
    {
        let LineEvent::Answered { answer, .. } = line_event else {
            return None;
        };
        match answer {
            Answer::NotRun => Some(LineReason::Refused(Reason::NotActive)),
            Answer::NoName => unset(walk),
            Answer::Rc0
            | Answer::Rc4
            | Answer::Granted(_)
            | Answer::Cell
            | Answer::NoCell
            | Answer::Attached
            | Answer::Ended
            | Answer::Done
            | Answer::Data(_)
            | Answer::Abended(_)
            | Answer::At(_)
            | Answer::Subpools
            | Answer::Map => Some(LineReason::Refused(self.reason?)),
        }
    }

    /// Returns the address that a reason for the request that was refused last is about, if it has one.
    pub fn address(&self, reason: &Reason) -> Option<Addr>
        ensures { result ≡ reason_address self.now.request reason.now }
    {
        reason_address(&self.request, reason)
    }

    // Prints why a line was refused that says this.
    pub(crate) fn print<W: Write>(
        &self,
        writer: &mut Watched<W>,
        read: &Line,
        reason: &Option<LineReason>,
    ) -> Result<(), Failed>
        ensures { Prints W.contents writer.old writer.new result
            (reason_part read.now self.now.request reason.now) }
    {
        let Some(reason) = reason else {
            return Ok(());
        };
        match read {
            Line::Statement(task, _) => print_reason(writer, task, &self.request, reason),
            Line::Nothing => Ok(()),
        }
    }

    // Finds what a granted request of the line changed.
    fn find_facts(&mut self, walk: &Walk)
        requires { self.old.facts ≡ [] }
        ensures { self.new ≡ record self.old { facts = facts_after self.old.before walk.now.read walk.now.step } }
    {
        let Some(before) = &self.before else {
            return;
        };
        let Some(job) = walk.job() else {
            return;
        };
        match walk.read() {
            Line::Statement(task, Statement::Request(written)) => {
                put_facts(&mut self.facts, before, task, written, job);
            }
            Line::Statement(
                _,
                Statement::Region { .. }
                | Statement::Where(_)
                | Statement::ReportSubpools
                | Statement::ReportMap,
            )
            | Line::Nothing => {}
        }
    }

    /// Finds what the line changed, if its request was granted, by its events and the job after it. `effects` returns that.
    pub fn find_effects(&mut self, walk: &Walk, line_event: &LineEvent)
        ensures { (number : ℕ) → IsAvailable walk.now line_event.now
            → self.new ≡ record self.old {
              facts = granted_facts self.old.before walk.now.read
                  (events_of_line number walk.now line_event.now) walk.now.step;
            } }
    {
        self.facts.clear();
        if reports_grant(line_event) {
            self.find_facts(walk);
        }
    }

    /// Returns the changes that were found last.
    pub fn effects(&self) -> &[Fact]
        ensures { result.now ≡ self.now.facts }
    {
        self.facts.as_slice()
    }

    /// Returns the subpools that tasks owned before the latest task ended.
    pub fn subpools(&self) -> &[OwnedSubpool]
        ensures { result.now ≡ self.now.subpools }
    {
        self.subpools.as_slice()
    }

    // Prints what the line changed, if its request was granted.
    pub(crate) fn print_done<W: Write>(
        &mut self,
        writer: &mut Watched<W>,
        walk: &Walk,
        line_event: &LineEvent,
    ) -> Result<(), Failed>
        requires { IsAvailable walk.now line_event.now }
        ensures { (number : ℕ)
            → Prints W.contents writer.old writer.new result
            (granted_text self.old.before walk.now.read (events_of_line number walk.now line_event.now)
            walk.now.step) }
    {
        self.find_effects(walk, line_event);
        print_facts(writer, self.effects())
    }
}
