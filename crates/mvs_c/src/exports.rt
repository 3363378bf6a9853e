//! The functions that C calls. A handle is taken apart for the time of a call.

ghost use Rattle.std.specs.Prelude.{◌≡◌, ◌≢◌, ◌⊎◌, ◌↔◌, ◌≤◌, ◌<◌, [], List, Bool, Some, None, Option, slice_get, true, false, IfSome, IsSome};
ghost use Rattle.mvs_model.specs.FullAnswers.{ended_with_in};
ghost use Rattle.mvs_model.specs.declared.report.MapRun.{MapRun};
ghost use Rattle.mvs_c.specs.Access.{AnswersRead, AnswersSubpool, AnswersWrite, FindsRun, ReturnsOne, run_bytes, run_value, subpool_bytes};
ghost use Rattle.mvs_c.specs.Opens.{TakesLine, events_of, new_open, text_of};
ghost use Rattle.mvs_c.specs.Asks.{Asks, named_answer};
ghost use Rattle.mvs_c.specs.Events.{event_bytes};
ghost use Rattle.mvs_c.specs.Held.{FindsHeld, held_bytes, held_value};
ghost use Rattle.mvs_c.specs.declared.held.HeldRun.{HeldRun};
ghost use Rattle.mvs_c.specs.Regions.{region_bytes, region_line};
ghost use Rattle.mvs_c.specs.Pools.{FindsPool, pool_bytes};
ghost use Rattle.mvs_c.specs.declared.pool.PoolFields.{PoolFields};
ghost use Rattle.mvs_c.specs.Members.{FindsPoolName, FindsTask, task_bytes};
ghost use Rattle.mvs_c.specs.declared.member.TaskFields.{TaskFields};
ghost use Rattle.mvs_model.specs.declared.name.Name.{Name as TheName};
ghost use Rattle.mvs_c.specs.Reasons.{reason_bytes};
ghost use Rattle.mvs_c.specs.Statements.{States};
ghost use Rattle.mvs_c.specs.Lists.{AsksList, area_values, listed};
ghost use Rattle.mvs_c.specs.Exports.{AnswersValues, AnswersEnd, AnswersLine, AnswersList, AnswersRequest, BeginsWith, HandsOver, IsNewPlace, IsPlaceNumber, TriesLine, WithSession, line_status, outcome_status};

use crate::access::{self, RunFields, Subpool};
use crate::ask::{RawRequest, RequestKind, name_of};
use crate::buffer::hand_over;
use crate::byte_use::{new_place, uses_bytes};
use crate::event::{Event, end_event, event_of_line, fault_event, refused_event, requested_event};
use crate::field::RequestField;
use crate::handle::Handle;
use crate::held::{HeldFields, copy_held};
use crate::list::{ListArea, write_listed};
use crate::member::{TaskFields, copy_pool_name, copy_task};
use crate::open::Open;
use crate::pages::pages_of_new;
use crate::pool::{PoolFields, copy_pool};
use crate::reason::ReasonFields;
use crate::region::RegionFields;
use crate::statement::statement;
use crate::status::{
    NO_BYTES, NO_MEMORY, NO_MORE, NO_PLACE, NO_REQUEST, NO_SESSION, NO_STEP, OK, OVER,
    SCRIPT_FAULT, TOO_LONG, WRONG_SIZE,
};
use mvs_job::{LineEvent, OutOfMemoryAt};
use mvs_model::name::Name;
use mvs_model::outcome::Outcome;
use mvs_model::request::Request;
use mvs_model::want::Placement;
use mvs_model::watched::Watched;
use std::alloc::Global;
use std::mem;

/// The version of these calls.
const VERSION: u32 = 2_007;

/// Returns the status of an outcome.
pub fn outcome_status(outcome: Outcome) -> u32
    ensures status { result ≡ outcome_status outcome }
    ensures low { result < 16 }
{
    match outcome {
        Outcome::Clean => 0,
        Outcome::SomeAbend => 8,
        Outcome::ScriptFault => 12,
    }
}

// Returns the status of a line.
fn line_status(line_event: &Result<LineEvent, OutOfMemoryAt>) -> u32
    ensures { result ≡ line_status line_event.now }
{
    match line_event {
        Ok(LineEvent::Faulted(_)) => SCRIPT_FAULT,
        Ok(_) => OK,
        Err(_) => NO_MEMORY,
    }
}

/// Returns the placement of a number: 1 is low, 2 is high.
pub fn placement(number: u32) -> Option<Placement>
    ensures { IsSome result ↔ IsPlaceNumber number }
{
    match number {
        1 => Some(Placement::Low),
        2 => Some(Placement::High),
        _ => None,
    }
}

/// Puts a session into a handle. One that it held is freed.
pub fn put(alloc: Global, session: &mut Handle, held: Box<Open>)
    ensures { session.new.open ≡ Some held.value }
{
    if let Some(left) = mem::replace(session, Handle::of(held)).into_box(alloc) {
        drop(left);
    }
}

/// Takes the session out of a handle.
pub fn take_out(alloc: Global, session: &mut Handle) -> Option<Box<Open>>
    ensures none { result ≡ None → session.old.open ≡ None }
    ensures some { IfSome result (λ held. session.old.open ≡ Some held.value) }
    ensures left { session.new.open ≡ None }
{
    mem::replace(session, Handle::none()).into_box(alloc)
}

// Passes a line to a session, if it accepts one.
fn execute_line(held: &mut Open, line: &[u8], event: &mut Event) -> u32
    ensures { AnswersLine held.old line.now held.new event.old event.new result }
{
    if !held.takes_line() {
        return OVER;
    }
    if held.line_lacks_bytes(line) {
        return NO_BYTES;
    }
    let line_event = held.line(line);
    *event = event_of_line(&line_event);
    line_status(&line_event)
}

// Passes a line to a session, if it accepts one and the line has no fault.
fn try_line(held: &mut Open, line: &[u8], event: &mut Event) -> u32
    ensures { TriesLine held.old line.now held.new event.old event.new result }
{
    if !held.takes_line() {
        return OVER;
    }
    match held.fault_in(line) {
        Some(fault) => {
            *event = fault_event(fault);
            SCRIPT_FAULT
        }
        None => execute_line(held, line, event),
    }
}

// Passes a request of a kind to a session that continues, if there is a request and a step is running.
#[inline(always)]
fn serve(
    held: &mut Open,
    kind: Option<RequestKind>,
    named: Result<Name, RequestField>,
    request: &Request,
    event: &mut Event,
) -> u32
    requires { held.old.session.continues ≡ true }
    ensures { AnswersValues held.old kind (named_answer named request.now) held.new event.old event.new
        result }
{
    let task = match named {
        Ok(task) => task,
        Err(field) => {
            *event = refused_event(field);
            return NO_REQUEST;
        }
    };
    if !held.keeps_bytes() && uses_bytes(request) {
        return NO_BYTES;
    }
    if !held.request(&task, request) {
        return NO_STEP;
    }
    *event = requested_event(kind, &task, held.reply());
    OK
}

// Passes a request to a session, if it continues and a step is running.
fn execute_request(held: &mut Open, ask: &RawRequest, event: &mut Event) -> u32
    ensures { AnswersRequest held.old ask.now (Asks ask.now) held.new event.old event.new result }
{
    if !held.continues() {
        return OVER;
    }
    let mut request = Request::Return;
    let named = ask.task_request(held.task_named(&ask.task), &mut request);
    serve(held, ask.kind(), named, &request, event)
}

// Passes a list request to a session, if it continues and a step is running.
fn execute_list(held: &mut Open, ask: &RawRequest, areas: &mut [ListArea], event: &mut Event) -> u32
    ensures answer { AnswersRequest held.old ask.now
        (AsksList ask.now areas.old) held.new event.old event.new
        result }
    ensures granted { result ≡ 0
        → areas.new ≡ area_values (listed held.new.session.walk.reply) areas.old }
    ensures left { result ≢ 0 → areas.new ≡ areas.old }
{
    if !held.continues() {
        return OVER;
    }
    let mut request = Request::Return;
    let named = ask.task_list_request(held.task_named(&ask.task), areas, &mut request);
    let status = serve(held, ask.kind(), named, &request, event);
    if status == OK {
        write_listed(held.reply(), areas);
    }
    status
}

// Ends a session that continues: there are no more lines.
fn end_job(held: &mut Open, event: &mut Event) -> u32
    ensures { AnswersEnd held.old held.new event.old event.new result }
{
    if !held.continues() {
        return OVER;
    }
    let closing = held.close();
    *event = end_event(closing.ended);
    outcome_status(closing.outcome)
}

// Returns why the last request of a session was refused.
fn copy_reason(held: &Open, reason: &mut ReasonFields) -> u32
    ensures { ReturnsOne held.now.why.fields (λ f. f) reason.old reason.new result }
{
    match held.reason() {
        Some(fields) => {
            *reason = fields;
            OK
        }
        None => NO_MORE,
    }
}

// Returns the text of the last events of a session.
fn show(alloc: Global, held: &Open, out: &mut [u8], wanted: &mut usize) -> u32
    ensures memory { result ≡ 16 → (out.new ≡ out.old) × (wanted.new ≡ wanted.old) }
    ensures needed { result ≡ 16 → events_of held.now.session.walk held.now.last ≢ [] }
    ensures text { result ≢ 16 → HandsOver (text_of held.now) out.old out.new wanted.new 0 result }
{
    if held.prints_nothing() {
        return hand_over(&[], out, wanted, OK);
    }
    let mut writer = Watched::new(Vec::new(alloc));
    match held.print(&mut writer) {
        Ok(()) => hand_over(&writer.into_inner(), out, wanted, OK),
        Err(_) => NO_MEMORY,
    }
}

/// Returns the version of these calls.
#[unsafe(no_mangle)]
pub extern "C" fn mvs_version() -> u32
    ensures { result ≡ 2007 }
{
    VERSION
}

/// Begins a session. One that the handle held is freed.
#[unsafe(no_mangle)]
pub extern "C" fn mvs_new(alloc: Global, session: &mut Handle, place: u32) -> u32
    ensures begun { result ≡ 0 → (pages : Option (List Bool)) × BeginsWith place pages
        × (session.new.open ≡ Some (new_open pages)) }
    ensures memory { result ≢ 0 → session.new.open ≡ session.old.open }
    ensures place { IsNewPlace place → (result ≡ 0) ⊎ (result ≡ 16) }
    ensures no_place { (IsNewPlace place → ⊥) → result ≡ 60 }
{
    let Some((placement, keeps_bytes)) = new_place(place) else {
        return NO_PLACE;
    };
    let Ok(pages) = pages_of_new(alloc, keeps_bytes) else {
        return NO_MEMORY;
    };
    match Box::new(alloc, Open::new(alloc, placement, pages)) {
        Ok(held) => {
            put(alloc, session, held);
            OK
        }
        Err(_) => NO_MEMORY,
    }
}

// Puts a copy of a session into a handle.
fn put_copy(alloc: Global, held: &Open, to: &mut Handle) -> u32
    ensures copied { result ≡ 0 → to.new.open ≡ Some held.now }
    ensures memory { result ≢ 0 → to.new.open ≡ to.old.open }
    ensures status { (result ≡ 0) ⊎ (result ≡ 16) }
{
    let Ok(copy) = held.try_clone() else {
        return NO_MEMORY;
    };
    match Box::new(alloc, copy) {
        Ok(copy) => {
            put(alloc, to, copy);
            OK
        }
        Err(_) => NO_MEMORY,
    }
}

/// Makes a copy of a session. One that the other handle held is freed.
#[unsafe(no_mangle)]
pub extern "C" fn mvs_clone(alloc: Global, from: &mut Handle, to: &mut Handle) -> u32
    ensures from { from.new.open ≡ from.old.open }
    ensures copied { result ≡ 0 → to.new.open ≡ from.old.open }
    ensures memory { result ≢ 0 → to.new.open ≡ to.old.open }
    ensures none { from.old.open ≡ None → result ≡ 20 }
    ensures some { IsSome from.old.open → (result ≡ 0) ⊎ (result ≡ 16) }
{
    let Some(held) = take_out(alloc, from) else {
        return NO_SESSION;
    };
    let status = put_copy(alloc, &held, to);
    put(alloc, from, held);
    status
}

/// Executes a line, which is given without its newline.
#[unsafe(no_mangle)]
pub extern "C" fn mvs_line(
    alloc: Global,
    session: &mut Handle,
    line: &[u8],
    event: &mut Event,
) -> u32
    ensures size { event.old.size ≢ event_bytes
        → (result ≡ 64) × (session.new.open ≡ session.old.open) × (event.new ≡ event.old) }
    ensures answer { event.old.size ≡ event_bytes
        → WithSession session.old.open session.new.open
        ((result ≡ 20) × (event.new ≡ event.old))
        (λ old new. AnswersLine old line.now new event.old event.new result) }
{
    if !event.is_sized() {
        return WRONG_SIZE;
    }
    let Some(mut held) = take_out(alloc, session) else {
        return NO_SESSION;
    };
    let status = execute_line(&mut held, line, event);
    put(alloc, session, held);
    status
}

/// Executes a line, as `mvs_line` does; one with a fault changes nothing but the event.
#[unsafe(no_mangle)]
pub extern "C" fn mvs_try(
    alloc: Global,
    session: &mut Handle,
    line: &[u8],
    event: &mut Event,
) -> u32
    ensures size { event.old.size ≢ event_bytes
        → (result ≡ 64) × (session.new.open ≡ session.old.open) × (event.new ≡ event.old) }
    ensures answer { event.old.size ≡ event_bytes
        → WithSession session.old.open session.new.open
        ((result ≡ 20) × (event.new ≡ event.old))
        (λ old new. TriesLine old line.now new event.old event.new result) }
{
    if !event.is_sized() {
        return WRONG_SIZE;
    }
    let Some(mut held) = take_out(alloc, session) else {
        return NO_SESSION;
    };
    let status = try_line(&mut held, line, event);
    put(alloc, session, held);
    status
}

/// Begins a step, as `mvs_try` does with the line of its REGION statement.
#[unsafe(no_mangle)]
pub extern "C" fn mvs_begin(
    alloc: Global,
    session: &mut Handle,
    region: &RegionFields,
    event: &mut Event,
) -> u32
    ensures size { (region.now.size ≡ region_bytes → ⊥) ⊎ (event.old.size ≡ event_bytes → ⊥)
        → (result ≡ 64) × (session.new.open ≡ session.old.open) × (event.new ≡ event.old) }
    ensures answer { region.now.size ≡ region_bytes → event.old.size ≡ event_bytes
        → WithSession session.old.open session.new.open
        ((result ≡ 20) × (event.new ≡ event.old))
        (λ old new. TriesLine old (region_line region.now) new event.old event.new result) }
{
    if !region.is_sized() || !event.is_sized() {
        return WRONG_SIZE;
    }
    let Some(mut held) = take_out(alloc, session) else {
        return NO_SESSION;
    };
    let status = try_line(&mut held, region.line().as_slice(), event);
    put(alloc, session, held);
    status
}

/// Gives a request by values.
#[unsafe(no_mangle)]
pub extern "C" fn mvs_request(
    alloc: Global,
    session: &mut Handle,
    ask: &RawRequest,
    event: &mut Event,
) -> u32
    ensures size { event.old.size ≢ event_bytes
        → (result ≡ 64) × (session.new.open ≡ session.old.open) × (event.new ≡ event.old) }
    ensures answer { event.old.size ≡ event_bytes
        → WithSession session.old.open session.new.open
        ((result ≡ 20) × (event.new ≡ event.old))
        (λ old new. AnswersRequest old ask.now (Asks ask.now) new event.old event.new result) }
{
    if !event.is_sized() {
        return WRONG_SIZE;
    }
    let Some(mut held) = take_out(alloc, session) else {
        return NO_SESSION;
    };
    let status = execute_request(&mut held, ask, event);
    put(alloc, session, held);
    status
}

/// Executes a list request by values, and returns the granted areas.
#[unsafe(no_mangle)]
pub extern "C" fn mvs_list(
    alloc: Global,
    session: &mut Handle,
    ask: &RawRequest,
    areas: &mut [ListArea],
    event: &mut Event,
) -> u32
    ensures size { event.old.size ≢ event_bytes
        → (result ≡ 64) × (session.new.open ≡ session.old.open) × (areas.new ≡ areas.old)
        × (event.new ≡ event.old) }
    ensures answer { event.old.size ≡ event_bytes
        → WithSession session.old.open session.new.open
        ((result ≡ 20) × (areas.new ≡ areas.old) × (event.new ≡ event.old))
        (λ old new. AnswersList old ask.now areas.old new areas.new event.old event.new result) }
{
    if !event.is_sized() {
        return WRONG_SIZE;
    }
    let Some(mut held) = take_out(alloc, session) else {
        return NO_SESSION;
    };
    let status = execute_list(&mut held, ask, areas, event);
    put(alloc, session, held);
    status
}

/// Ends the job: there are no more lines.
#[unsafe(no_mangle)]
pub extern "C" fn mvs_end(alloc: Global, session: &mut Handle, event: &mut Event) -> u32
    ensures size { event.old.size ≢ event_bytes
        → (result ≡ 64) × (session.new.open ≡ session.old.open) × (event.new ≡ event.old) }
    ensures answer { event.old.size ≡ event_bytes
        → WithSession session.old.open session.new.open
        ((result ≡ 20) × (event.new ≡ event.old))
        (λ old new. AnswersEnd old new event.old event.new result) }
{
    if !event.is_sized() {
        return WRONG_SIZE;
    }
    let Some(mut held) = take_out(alloc, session) else {
        return NO_SESSION;
    };
    let status = end_job(&mut held, event);
    put(alloc, session, held);
    status
}

/// Prints the last events to the front of a buffer.
#[unsafe(no_mangle)]
pub extern "C" fn mvs_text_into(
    alloc: Global,
    session: &mut Handle,
    out: &mut [u8],
    wanted: &mut usize,
) -> u32
    ensures session { session.new.open ≡ session.old.open }
    ensures none { session.old.open ≡ None
        → (result ≡ 20) × (out.new ≡ out.old) × (wanted.new ≡ wanted.old) }
    // Memory is exhausted only where there is something to print.
    ensures memory { result ≡ 16 → (out.new ≡ out.old) × (wanted.new ≡ wanted.old) }
    ensures needed { IfSome session.old.open
        (λ old. result ≡ 16 → events_of old.session.walk old.last ≢ []) }
    ensures text { IfSome session.old.open
        (λ old. result ≢ 16 → HandsOver (text_of old) out.old out.new wanted.new 0 result) }
{
    let Some(held) = take_out(alloc, session) else {
        return NO_SESSION;
    };
    let status = show(alloc, &held, out, wanted);
    put(alloc, session, held);
    status
}

/// Copies the line that says why the last request was refused to the front of a buffer: nothing if it was granted.
#[unsafe(no_mangle)]
pub extern "C" fn mvs_why_into(
    alloc: Global,
    session: &mut Handle,
    out: &mut [u8],
    wanted: &mut usize,
) -> u32
    ensures session { session.new.open ≡ session.old.open }
    ensures none { session.old.open ≡ None
        → (result ≡ 20) × (out.new ≡ out.old) × (wanted.new ≡ wanted.old) }
    ensures text { IfSome session.old.open
        (λ old. HandsOver old.why.text out.old out.new wanted.new 0 result) }
{
    let Some(held) = take_out(alloc, session) else {
        return NO_SESSION;
    };
    let status = hand_over(held.why(), out, wanted, OK);
    put(alloc, session, held);
    status
}

/// Returns why the last request was refused.
#[unsafe(no_mangle)]
pub extern "C" fn mvs_why_fields(
    alloc: Global,
    session: &mut Handle,
    reason: &mut ReasonFields,
) -> u32
    ensures session { session.new.open ≡ session.old.open }
    ensures size { reason.old.size ≢ reason_bytes → (result ≡ 64) × (reason.new ≡ reason.old) }
    ensures none { reason.old.size ≡ reason_bytes → session.old.open ≡ None
        → (result ≡ 20) × (reason.new ≡ reason.old) }
    ensures fields { reason.old.size ≡ reason_bytes
        → IfSome session.old.open
        (λ old. ReturnsOne old.why.fields (λ f. f) reason.old reason.new result) }
{
    if !reason.is_sized() {
        return WRONG_SIZE;
    }
    let Some(held) = take_out(alloc, session) else {
        return NO_SESSION;
    };
    let status = copy_reason(&held, reason);
    put(alloc, session, held);
    status
}

/// Frees a session, where the handle holds one.
#[unsafe(no_mangle)]
pub extern "C" fn mvs_free_session(alloc: Global, session: &mut Handle)
    ensures { session.new.open ≡ None }
{
    drop(take_out(alloc, session));
}

/// Copies the bytes from an address on.
#[unsafe(no_mangle)]
pub extern "C" fn mvs_read(alloc: Global, session: &mut Handle, address: u32, out: &mut [u8]) -> u32
    ensures session { session.new.open ≡ session.old.open }
    ensures none { session.old.open ≡ None → (result ≡ 20) × (out.new ≡ out.old) }
    ensures read { IfSome session.old.open (λ old. AnswersRead old address out.old out.new result) }
{
    let Some(held) = take_out(alloc, session) else {
        return NO_SESSION;
    };
    let status = access::read(&held, address, out);
    put(alloc, session, held);
    status
}

/// Writes bytes from an address on.
#[unsafe(no_mangle)]
pub extern "C" fn mvs_write(alloc: Global, session: &mut Handle, address: u32, bytes: &[u8]) -> u32
    ensures { WithSession session.old.open session.new.open (result ≡ 20)
        (λ old new. AnswersWrite old address bytes.now new result) }
{
    let Some(mut held) = take_out(alloc, session) else {
        return NO_SESSION;
    };
    let status = access::write(&mut held, address, bytes);
    put(alloc, session, held);
    status
}

/// Returns the name of one of the tasks that ended with the last one that abended.
#[unsafe(no_mangle)]
pub extern "C" fn mvs_fallen(
    alloc: Global,
    session: &mut Handle,
    index: usize,
    name: &mut [u8; 8],
) -> u32
    ensures session { session.new.open ≡ session.old.open }
    ensures none { session.old.open ≡ None → (result ≡ 20) × (name.new ≡ name.old) }
    ensures returned { IfSome session.old.open
        (λ old. ReturnsOne (slice_get (ended_with_in old.session.walk.reply) index) (λ t. t) name.old name.new
        result) }
{
    let Some(held) = take_out(alloc, session) else {
        return NO_SESSION;
    };
    let status = access::copy_ended_with(&held, index, name);
    put(alloc, session, held);
    status
}

/// Returns the first subpool number of a task at or after one.
#[unsafe(no_mangle)]
pub extern "C" fn mvs_subpool(
    alloc: Global,
    session: &mut Handle,
    task: &[u8; 8],
    from: u8,
    subpool: &mut Subpool,
) -> u32
    ensures session { session.new.open ≡ session.old.open }
    ensures size { subpool.old.size ≢ subpool_bytes → (result ≡ 64) × (subpool.new ≡ subpool.old) }
    ensures none { subpool.old.size ≡ subpool_bytes → session.old.open ≡ None
        → (result ≡ 20) × (subpool.new ≡ subpool.old) }
    ensures returned { subpool.old.size ≡ subpool_bytes
        → IfSome session.old.open (λ old. AnswersSubpool old task.now from subpool.old subpool.new result) }
{
    if !subpool.is_sized() {
        return WRONG_SIZE;
    }
    let Some(held) = take_out(alloc, session) else {
        return NO_SESSION;
    };
    let status = access::copy_subpool(&held, task, from, subpool);
    put(alloc, session, held);
    status
}

/// Returns the first run of pages at or after an address.
#[unsafe(no_mangle)]
pub extern "C" fn mvs_map(
    alloc: Global,
    session: &mut Handle,
    from: u32,
    fields: &mut RunFields,
) -> u32
    ensures session { session.new.open ≡ session.old.open }
    ensures size { fields.old.size ≢ run_bytes → (result ≡ 64) × (fields.new ≡ fields.old) }
    ensures none { fields.old.size ≡ run_bytes → session.old.open ≡ None
        → (result ≡ 20) × (fields.new ≡ fields.old) }
    ensures returned { fields.old.size ≡ run_bytes
        → IfSome session.old.open
        (λ old. (found : Option MapRun) × FindsRun old from found
        × ReturnsOne found run_value fields.old fields.new result) }
{
    if !fields.is_sized() {
        return WRONG_SIZE;
    }
    let Some(held) = take_out(alloc, session) else {
        return NO_SESSION;
    };
    let status = access::copy_run(&held, from, fields);
    put(alloc, session, held);
    status
}

/// Returns the first run of held doublewords at or after an address.
#[unsafe(no_mangle)]
pub extern "C" fn mvs_held(
    alloc: Global,
    session: &mut Handle,
    from: u32,
    run: &mut HeldFields,
) -> u32
    ensures session { session.new.open ≡ session.old.open }
    ensures size { run.old.size ≢ held_bytes → (result ≡ 64) × (run.new ≡ run.old) }
    ensures none { run.old.size ≡ held_bytes → session.old.open ≡ None
        → (result ≡ 20) × (run.new ≡ run.old) }
    ensures run { run.old.size ≡ held_bytes
        → IfSome session.old.open
        (λ old. (found : Option HeldRun) × FindsHeld old from found
        × ReturnsOne found held_value run.old run.new result) }
{
    if !run.is_sized() {
        return WRONG_SIZE;
    }
    let Some(held) = take_out(alloc, session) else {
        return NO_SESSION;
    };
    let status = copy_held(&held, from, run);
    put(alloc, session, held);
    status
}

/// Returns the cell pool of a name.
#[unsafe(no_mangle)]
pub extern "C" fn mvs_pool(
    alloc: Global,
    session: &mut Handle,
    name: &[u8; 8],
    pool: &mut PoolFields,
) -> u32
    ensures session { session.new.open ≡ session.old.open }
    ensures size { pool.old.size ≢ pool_bytes → (result ≡ 64) × (pool.new ≡ pool.old) }
    ensures none { pool.old.size ≡ pool_bytes → session.old.open ≡ None
        → (result ≡ 20) × (pool.new ≡ pool.old) }
    ensures pool { pool.old.size ≡ pool_bytes
        → IfSome session.old.open
        (λ old. (found : Option PoolFields) × FindsPool old name.now found
        × ReturnsOne found (λ p. p) pool.old pool.new result) }
{
    if !pool.is_sized() {
        return WRONG_SIZE;
    }
    let Some(held) = take_out(alloc, session) else {
        return NO_SESSION;
    };
    let status = copy_pool(&held, name, pool);
    put(alloc, session, held);
    status
}

/// Returns the first active task whose name is after these eight bytes in byte order; the first of all if they are no name.
#[unsafe(no_mangle)]
pub extern "C" fn mvs_next_task(
    alloc: Global,
    session: &mut Handle,
    after: &[u8; 8],
    task: &mut TaskFields,
) -> u32
    ensures session { session.new.open ≡ session.old.open }
    ensures size { task.old.size ≢ task_bytes → (result ≡ 64) × (task.new ≡ task.old) }
    ensures none { task.old.size ≡ task_bytes → session.old.open ≡ None
        → (result ≡ 20) × (task.new ≡ task.old) }
    ensures task { task.old.size ≡ task_bytes
        → IfSome session.old.open
        (λ old. (found : Option TaskFields) × FindsTask old after.now found
        × ReturnsOne found (λ t. t) task.old task.new result) }
{
    if !task.is_sized() {
        return WRONG_SIZE;
    }
    let Some(held) = take_out(alloc, session) else {
        return NO_SESSION;
    };
    let status = copy_task(&held, after, task);
    put(alloc, session, held);
    status
}

/// Returns the name of the first cell pool after these eight bytes in byte order; of the first of all if they are no name.
#[unsafe(no_mangle)]
pub extern "C" fn mvs_next_pool(
    alloc: Global,
    session: &mut Handle,
    after: &[u8; 8],
    name: &mut [u8; 8],
) -> u32
    ensures session { session.new.open ≡ session.old.open }
    ensures none { session.old.open ≡ None → (result ≡ 20) × (name.new ≡ name.old) }
    ensures name { IfSome session.old.open
        (λ old. (found : Option TheName) × FindsPoolName old after.now found
        × ReturnsOne found (λ n. n) name.old name.new result) }
{
    let Some(held) = take_out(alloc, session) else {
        return NO_SESSION;
    };
    let status = copy_pool_name(&held, after, name);
    put(alloc, session, held);
    status
}

/// Writes the statement of a request by values to the front of a buffer. An area or a cell gets this name.
#[unsafe(no_mangle)]
pub extern "C" fn mvs_statement_into(
    ask: &RawRequest,
    area: &[u8; 8],
    out: &mut [u8],
    wanted: &mut usize,
) -> u32
    ensures { States ask.now area.now out.old out.new wanted.old wanted.new result }
{
    let Ok(_) = ask.task_request(name_of(&ask.task), &mut Request::Return) else {
        return NO_REQUEST;
    };
    if name_of(area).is_none() {
        return NO_REQUEST;
    }
    let Some(kind) = ask.kind() else {
        return NO_REQUEST;
    };
    match statement(kind, ask, area) {
        Some(text) => hand_over(text.as_slice(), out, wanted, OK),
        None => TOO_LONG,
    }
}
