//! A session, its last event, why its last request was refused, what is recorded of it, and the pages that it knows as assigned.

ghost use Rattle.std.specs.Prelude.{◌≡◌, ◌≢◌, ◌+◌, ◌^◌, ◌<◌, ◌∷◌, [], List, Bool, true, false, None, Some, length, IfOk, IfSome, IsOk, IsSome, MatchBool, MatchOption, MatchResult, OnErr, SomeIff};
ghost use Rattle.mvs_model.specs.FullAnswers.{ended_with_in};
ghost use Rattle.mvs_model.specs.Memory.{StopsForMemory};
ghost use Rattle.mvs_model.specs.Runs.{machine};
ghost use Rattle.mvs_model.specs.Walk.{Closes};
ghost use Rattle.line_text.specs.Writing.{Prints};
ghost use Rattle.mvs_job.specs.LineEvents.{ServesAs, KeepsReplyOf, closing, ended, continues};
ghost use Rattle.mvs_job.specs.Valued.{RequestsOf, WritesOf};
ghost use Rattle.mvs_c.specs.declared.last.Last.TheVariants as last;
ghost use Rattle.mvs_c.specs.Effects.{asked_of};
ghost use Rattle.mvs_c.specs.Reasons.{no_why};
ghost use Rattle.mvs_c.specs.Recording.{RecordsLine, forgotten, recorded_values, switched_on};
ghost use Rattle.mvs_c.specs.Why.{IsWhyOfLine, IsWhyOfValues};
ghost use Rattle.mvs_c.specs.ByteUse.{LineLacksBytes};
ghost use Rattle.mvs_c.specs.Asks.{IsNamed, name_value};
ghost use Rattle.mvs_c.specs.Opens.{TakesLine, events_of, fault_of, keeps_bytes, last_of, new_open, recording, text_of, without_line};
ghost use Rattle.mvs_c.specs.Pages.{AreFlags, FindsChanged};

use crate::byte_use::line_uses_bytes;
use crate::last::Last;
use crate::last_name::LastName;
use crate::last_reason::LastReason;
use crate::pages::{KnownPages, PageSpan};
use crate::reason::ReasonFields;
use crate::recorder::Recorder;
use job_script::read_line;
use mvs_job::{Job, JobEnd, LineEvent, OutOfMemoryAt, Session, print_closing, print_line};
use mvs_model::error::OutOfMemory;
use mvs_model::line::{Fault, Line};
use mvs_model::name::Name;
use mvs_model::place::Place;
use mvs_model::request::{Reply, Request};
use mvs_model::want::Placement;
use mvs_model::watched::{Failed, Watched};
use std::alloc::Global;
use std::io::Write;
use std::marker::Model;

/// A session, its last event, why its last request was refused, what is recorded of it, and the pages that it knows as assigned.
#[derive(Drop)]
pub struct Open {
    session: Session,
    last: Last,
    why: LastReason,
    recorder: Recorder,
    // Those of a session without bytes.
    pages: Option<KnownPages>,
    // The name of a task that was read last.
    asking: LastName,
}

impl Model for Open {
    ghost use Rattle.mvs_c.specs.Opens.{LastIsAvailable, OpenValue, open_code};

    ghost Value = { OpenValue };

    ghost coded = { open_code };

    ghost view = { λ o. record { session = o.session; last = o.last; why = o.why; recorder = o.recorder; pages = o.pages } };

    ghost invariant = { λ o. LastIsAvailable o.session.walk o.last };
}

impl Open {
    /// Makes a session before its first line. It has no bytes if it knows pages.
    pub fn new(alloc: Global, placement: Placement, pages: Option<KnownPages>) -> Open
        ensures { result ≡ new_open pages }
    {
        Open {
            session: Session::new(alloc, placement),
            last: Last::Nothing,
            why: LastReason::new(),
            recorder: Recorder::none(),
            pages,
            asking: LastName::none(),
        }
    }

    /// Returns whether the job takes a line.
    pub fn takes_line(&self) -> bool
        ensures { MatchBool result (TakesLine self.now.session) (TakesLine self.now.session → ⊥) }
    {
        self.session.takes_line()
    }

    /// Returns whether the job continues.
    pub fn continues(&self) -> bool
        ensures { result ≡ self.now.session.continues }
    {
        self.session.continues()
    }

    /// Returns the step that runs; None before the first.
    pub fn job(&self) -> Option<&Job>
        ensures { MatchOption result (self.now.session.walk.step ≡ None)
            (λ job. self.now.session.walk.step ≡ Some job.now) }
    {
        self.session.walk().job()
    }

    /// Returns the tasks that ended with the one that abended, where the last request that was made abended.
    pub fn fallen(&self) -> &[Name]
        ensures { result.now ≡ ended_with_in self.now.session.walk.reply }
    {
        self.session.walk().fallen()
    }

    /// Returns the fault of a line, or None if it has none.
    pub fn fault_in(&self, line: &[u8]) -> Option<Fault>
        ensures { result ≡ fault_of self.now line.now }
    {
        let mut read = Line::Nothing;
        match read_line(line, self.job().is_none(), &mut read) {
            Ok(()) => None,
            Err(fault) => Some(fault),
        }
    }

    /// Returns whether the session has the bytes of storage.
    pub fn keeps_bytes(&self) -> bool
        ensures { result ≡ keeps_bytes self.now }
    {
        self.pages.is_none()
    }

    /// Returns whether a line reads or writes bytes that the session does not have.
    pub fn line_lacks_bytes(&self, line: &[u8]) -> bool
        ensures { MatchBool result (LineLacksBytes self.now line.now) (LineLacksBytes self.now line.now → ⊥) }
    {
        if self.keeps_bytes() {
            return false;
        }
        let mut read = Line::Nothing;
        match read_line(line, self.job().is_none(), &mut read) {
            Ok(()) => line_uses_bytes(&read),
            Err(_) => false,
        }
    }

    /// Returns the first and the last page that changed since the call before; None if there are none, or the session has bytes. It
    /// knows then how all pages are.
    pub fn changed_pages(&mut self) -> Option<PageSpan>
        ensures changed { MatchOption self.old.pages ((self.new ≡ self.old) × (result ≡ None))
            (λ known. (flags : List Bool) × AreFlags self.old.session.walk.step flags
            × (self.new ≡ record self.old { pages = Some flags }) × FindsChanged known flags result) }
        ensures low { IfSome result (λ span. (span.first < 12288) × (span.last < 12288)) }
    {
        let Some(pages) = &mut self.pages else {
            return None;
        };
        pages.look(self.session.walk())
    }

    /// Serves a line, as a session does.
    pub fn line(&mut self, line: &[u8]) -> Result<LineEvent, OutOfMemoryAt>
        requires { TakesLine self.old.session }
        ensures executed { MatchResult result
            (λ line_event. ServesAs self.old.session.walk line.now line_event self.new.session.walk)
            (λ stopped. StopsForMemory self.old.session.walk.number self.old.session.walk.step
            (line.now ∷ []) (ended stopped.ended)) }
        ensures reply { IfOk result
            (λ line_event. KeepsReplyOf self.old.session.walk line.now line_event self.new.session.walk) }
        ensures number { self.new.session.walk.number ≡ self.old.session.walk.number + 1 }
        ensures continues { self.new.session.continues ≡ continues result }
        ensures last { self.new.last ≡ last_of self.old.session.walk.number result }
        ensures why { IfOk result
            (λ line_event. IsWhyOfLine self.old.session.walk.step line.now line_event self.new.session.walk
            self.new.why) }
        ensures silent { OnErr result (self.new.why ≡ no_why) }
        ensures recorder { RecordsLine self.old.recorder self.old.session.walk.step line.now result self.new.recorder }
        ensures pages { self.new.pages ≡ self.old.pages }
    {
        let number = self.session.walk().number();
        self.why.clear();
        self.recorder.look(self.session.walk(), line);
        let line_event = self.session.observed_line(line, &mut self.why);
        self.recorder.settle(&line_event);
        self.last = match &line_event {
            Ok(line_event) => Last::Line {
                number,
                line_event: *line_event,
            },
            Err(stopped) => Last::OutOfMemoryAt(stopped.ended),
        };
        line_event
    }

    /// Returns the task that eight bytes name, or None if they are no name.
    pub fn task_named(&mut self, bytes: &[u8; 8]) -> Option<Name>
        ensures named { SomeIff result (IsNamed bytes.now) (name_value bytes.now) }
        ensures same { self.new ≡ self.old }
    {
        self.asking.read(bytes)
    }

    /// Executes a request given by values, as a session does; there is then no event of a line. Returns false if no step is
    /// running.
    #[inline(always)]
    pub fn request(&mut self, task: &Name, request: &Request) -> bool
        requires { self.old.session.continues ≡ true }
        ensures no_step { result ≡ false → (self.old.session.walk.step ≡ None) × (self.new ≡ self.old) }
        ensures served { result ≡ true
            → RequestsOf self.old.session.walk task.now request.now true self.new.session.walk
            × IsWhyOfValues self.old.session.walk.step task.now request.now self.new.session.walk self.new.why
            × (self.new ≡ without_line self.new.session.walk self.new.why
            (recorded_values self.old.recorder self.old.session.walk.step task.now (asked_of request.now))
            self.old.pages) }
    {
        let Some(job) = self.session.walk().job() else {
            return false;
        };
        self.recorder.record_request(job, task, request);
        self.why.clear();
        let served = self.session.request(task, request, &mut self.why);
        self.last.forget();
        served
    }

    /// Writes bytes, as a session does; there is then no event of a line. Returns false if it does not write them.
    pub fn write(&mut self, place: Place, bytes: &[u8]) -> bool
        requires continues { self.old.session.continues ≡ true }
        requires len { length bytes.now ≡ place.len }
        ensures walk { WritesOf self.old.session.walk place bytes.now result self.new.session.walk }
        ensures written { result ≡ true → self.new
            ≡ without_line self.new.session.walk no_why (forgotten self.old.recorder) self.old.pages }
        ensures refused { result ≡ false → self.new ≡ self.old }
    {
        let written = self.session.write(place, bytes);
        if written {
            self.last.forget();
            self.why.clear();
            self.recorder.forget();
        }
        written
    }

    /// Returns the reply to the last request that was made.
    pub fn reply(&self) -> &Reply
        ensures { result.now ≡ self.now.session.walk.reply }
    {
        self.session.walk().reply()
    }

    /// Returns the line that says why the last request was refused. It is empty if that was granted.
    pub fn why(&self) -> &[u8]
        ensures { result.now ≡ self.now.why.text }
    {
        self.why.as_slice()
    }

    /// Returns why the last request was refused; None if that was granted.
    pub fn reason(&self) -> Option<ReasonFields>
        ensures { result ≡ self.now.why.fields }
    {
        self.why.fields()
    }

    /// Ends the job, as a session does.
    pub fn close(&mut self) -> JobEnd
        requires { self.old.session.continues ≡ true }
        ensures closed { Closes machine self.old.session.walk.number self.old.session.walk.step
            (closing self.old.session.walk.number result.ended) result.outcome }
        ensures walk { self.new.session.walk ≡ self.old.session.walk }
        ensures over { self.new.session.continues ≡ false }
        ensures last { self.new.last ≡ last.Closed self.old.session.walk.number result.ended }
        ensures why { self.new.why ≡ no_why }
        ensures recorder { self.new.recorder ≡ forgotten self.old.recorder }
        ensures pages { self.new.pages ≡ self.old.pages }
    {
        let number = self.session.walk().number();
        let closing = self.session.close();
        self.last = Last::Closed {
            number,
            ended: closing.ended,
        };
        self.why.clear();
        self.recorder.forget();
        closing
    }

    /// Returns what is recorded of the last request.
    pub fn recorder(&self) -> &Recorder
        ensures { result.now ≡ self.now.recorder }
    {
        &self.recorder
    }

    /// Begins to record each request. It fails if memory is exhausted.
    pub fn start_recording(&mut self, alloc: Global) -> Result<(), OutOfMemory>
        ensures on { MatchResult result (λ _. self.new ≡ recording self.old) (λ _. self.new ≡ self.old) }
        ensures already { IsSome self.old.recorder.owned → IsOk result }
    {
        self.recorder.switch_on(alloc)
    }

    /// Returns whether the last event prints nothing.
    pub fn prints_nothing(&self) -> bool
        ensures { MatchBool result (events_of self.now.session.walk self.now.last ≡ [])
            (events_of self.now.session.walk self.now.last ≢ []) }
    {
        match &self.last {
            Last::Nothing => true,
            Last::Line { line_event, .. } => matches!(line_event, LineEvent::Nothing),
            Last::OutOfMemoryAt(ended) => ended.is_none(),
            Last::Closed { .. } => false,
        }
    }

    /// Prints the last event.
    pub fn print<W: Write>(&self, writer: &mut Watched<W>) -> Result<(), Failed>
        ensures { Prints W.contents writer.old writer.new result (text_of self.now) }
    {
        match &self.last {
            Last::Nothing => Ok(()),
            Last::Line { number, line_event } => print_line(
                writer,
                *number,
                self.session.walk(),
                line_event,
            ),
            Last::OutOfMemoryAt(None) => Ok(()),
            Last::OutOfMemoryAt(ended) => print_closing(writer, 1, *ended),
            Last::Closed { number, ended } => print_closing(writer, *number, *ended),
        }
    }

    /// Returns a copy, which continues as the original would. It fails if memory is exhausted.
    pub fn try_clone(&self) -> Result<Open, OutOfMemory>
        ensures { IfOk result (λ copy. copy ≡ self.now) }
    {
        let pages = self.pages.as_ref().map(KnownPages::try_clone).transpose()?;
        Ok(Open {
            session: self.session.try_clone()?,
            last: self.last,
            why: self.why.copied(),
            recorder: self.recorder.try_clone()?,
            pages,
            asking: self.asking.copied(),
        })
    }
}
