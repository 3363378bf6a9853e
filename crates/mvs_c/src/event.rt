//! The events of calls, as numbers. The numbers of the kinds are those of mvs.h, from 1 on.

ghost use Rattle.std.specs.Prelude.{◌≡◌, ◌≢◌, MatchBool, Ok};
ghost use Rattle.mvs_model.specs.Texts.{fault_number};
ghost use Rattle.mvs_job.specs.declared.walk.LineEvent.TheVariants as line_event;
ghost use Rattle.mvs_c.specs.Events.{answer_event, requested_event, completion, end_event, event_bytes, event_of_line, of_kind, of_place, of_task, refused_event, reply_event, step_number, system_event};

use crate::ask::RequestKind;
use crate::field::RequestField;
use mvs_job::{LineEvent, OutOfMemoryAt};
use mvs_model::answer::Answer;
use mvs_model::code::Code;
use mvs_model::line::Fault;
use mvs_model::name::Name;
use mvs_model::place::Place;
use mvs_model::request::Reply;

/// The number of bytes of an event.
const EVENT_BYTES: u32 = 32;

/// The event of a call: its kind, and the fields of that kind; all others are 0, and the task is blank.
#[repr(C)]
#[derive(Clone, Copy)]
pub struct Event {
    /// The number of bytes of this struct.
    pub size: u32,
    pub kind: u32,
    /// A completion code, the number of a fault, or the offset of a field.
    pub code: u32,
    pub address: u32,
    pub length: u32,
    /// Whether a step ended, and how.
    pub ended: u32,
    pub task: [u8; 8],
}

impl Event {
    /// Returns whether the size is that of an event.
    pub fn is_sized(&self) -> bool
        ensures { MatchBool result (self.now.size ≡ event_bytes) (self.now.size ≢ event_bytes) }
    {
        self.size == EVENT_BYTES
    }
}

// Makes an event of a kind, with no other field.
fn of_kind(kind: u32) -> Event
    ensures { result ≡ of_kind kind }
{
    Event {
        size: EVENT_BYTES,
        kind,
        code: 0,
        address: 0,
        length: 0,
        ended: 0,
        task: [b' '; 8],
    }
}

// Makes an event of a task.
fn of_task(kind: u32, task: &Name) -> Event
    ensures { result ≡ of_task kind task.now }
{
    Event {
        task: task.bytes(),
        ..of_kind(kind)
    }
}

// Makes an event of a task that has a place.
fn of_place(kind: u32, task: &Name, place: &Place) -> Event
    ensures { result ≡ of_place kind task.now place.now }
{
    Event {
        address: place.addr().get(),
        length: place.len(),
        ..of_task(kind, task)
    }
}

// Returns how a step ended.
fn step_number(ended: Option<bool>) -> u32
    ensures { result ≡ step_number ended }
{
    match ended {
        None => 0,
        Some(false) => 1,
        Some(true) => 2,
    }
}

// Returns a completion code in 24 bits.
fn completion(code: Code) -> u32
    ensures { result ≡ completion code }
{
    match code {
        Code::System(number) => u32::from(number) * 0x1000,
        Code::User(number) => u32::from(number),
    }
}

// Returns the number of a fault.
fn fault_number(fault: Fault) -> u32
    ensures { result ≡ fault_number fault }
{
    match fault {
        Fault::TooLong => 1,
        Fault::InvalidByte => 2,
        Fault::UnknownOperation => 3,
        Fault::InvalidOperand => 4,
        Fault::MissingOperand => 5,
        Fault::OutOfRange => 6,
        Fault::Repeated => 7,
        Fault::Conflicting => 8,
        Fault::OutOfPlace => 9,
    }
}

/// Returns the answer to a statement of a task.
pub fn answer_event(task: &Name, answer: &Answer) -> Event
    ensures { result ≡ answer_event task.now answer.now }
{
    match answer {
        Answer::NotRun => of_task(3, task),
        Answer::NoName => of_task(4, task),
        Answer::At(addr) => Event {
            address: addr.get(),
            ..of_task(5, task)
        },
        Answer::Rc0 => of_task(6, task),
        Answer::Granted(len) => Event {
            length: *len,
            ..of_task(7, task)
        },
        Answer::Rc4 => of_task(8, task),
        Answer::Cell => of_task(9, task),
        Answer::NoCell => of_task(10, task),
        Answer::Attached => of_task(11, task),
        Answer::Ended => of_task(12, task),
        Answer::Done => of_task(13, task),
        Answer::Data(place) => of_place(14, task, place),
        Answer::Abended(code) => Event {
            code: completion(*code),
            ..of_task(15, task)
        },
        Answer::Subpools => of_task(16, task),
        Answer::Map => of_task(17, task),
    }
}

// Returns the reply to a request of a task that was given by values.
fn reply_event(task: &Name, reply: &Reply) -> Event
    ensures { result ≡ reply_event task.now reply.now }
{
    match reply {
        Reply::NotRun => of_task(3, task),
        Reply::Rc0 | Reply::Listed(_) => of_task(6, task),
        Reply::Obtained(place) => of_place(7, task, place),
        Reply::Rc4 => of_task(8, task),
        Reply::Cell(place) => of_place(9, task, place),
        Reply::NoCell => of_task(10, task),
        Reply::Attached => of_task(11, task),
        Reply::Ended => of_task(12, task),
        Reply::Done => of_task(13, task),
        Reply::Abended(code, _) => Event {
            code: completion(*code),
            ..of_task(15, task)
        },
    }
}

// Returns the same of an abend with a system code, for which a user code of the same number was requested.
fn system_event(task: &Name, reply: &Reply) -> Event
    ensures { result ≡ system_event task.now reply.now }
{
    match reply {
        Reply::Abended(Code::User(number) | Code::System(number), _) => Event {
            code: completion(Code::System(*number)),
            ..of_task(15, task)
        },
        Reply::NotRun
        | Reply::Rc0
        | Reply::Rc4
        | Reply::Obtained(_)
        | Reply::Listed(_)
        | Reply::Cell(_)
        | Reply::NoCell
        | Reply::Attached
        | Reply::Ended
        | Reply::Done => reply_event(task, reply),
    }
}

/// Returns the reply to a request of this kind of a task.
pub fn requested_event(kind: Option<RequestKind>, task: &Name, reply: &Reply) -> Event
    ensures { result ≡ requested_event kind task.now reply.now }
{
    match kind {
        Some(RequestKind::SystemAbend) => system_event(task, reply),
        Some(
            RequestKind::Obtain
            | RequestKind::Release
            | RequestKind::ReleaseWhole
            | RequestKind::Build
            | RequestKind::Get
            | RequestKind::Free
            | RequestKind::Delete
            | RequestKind::Attach
            | RequestKind::Return
            | RequestKind::Abend
            | RequestKind::Show
            | RequestKind::Move,
        )
        | None => reply_event(task, reply),
    }
}

/// Returns the event of a line with a fault.
pub fn fault_event(fault: Fault) -> Event
    ensures { result ≡ event_of_line (Ok (line_event.Faulted fault)) }
{
    Event {
        code: fault_number(fault),
        ..of_kind(18)
    }
}

/// Returns the event of a line, or that memory is exhausted.
pub fn event_of_line(line_event: &Result<LineEvent, OutOfMemoryAt>) -> Event
    ensures { result ≡ event_of_line line_event.now }
{
    match line_event {
        Ok(LineEvent::Nothing) => of_kind(1),
        Ok(LineEvent::StepBegan { ended, card }) => Event {
            ended: step_number(*ended),
            ..of_task(2, &card.name())
        },
        Ok(LineEvent::Answered { task, answer }) => answer_event(task, answer),
        Ok(LineEvent::Faulted(fault)) => fault_event(*fault),
        Err(stopped) => Event {
            ended: step_number(stopped.ended),
            ..of_kind(19)
        },
    }
}

/// Returns the end of a job.
pub fn end_event(ended: Option<bool>) -> Event
    ensures { result ≡ end_event ended }
{
    Event {
        ended: step_number(ended),
        ..of_kind(20)
    }
}

/// Returns the event of a request that is refused because of a field.
pub fn refused_event(field: RequestField) -> Event
    ensures { result ≡ refused_event field }
{
    Event {
        code: field.offset(),
        ..of_kind(21)
    }
}
