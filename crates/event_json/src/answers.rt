//! What a statement is answered, as members of an object.

ghost use Rattle.std.specs.Prelude.{◌≡◌};

use crate::members::Members;
use mvs_job::{Job, Walk};
use mvs_model::answer::Answer;
use mvs_model::code::Code;
use mvs_model::name::Name;
use mvs_model::numbers::{MOST_PAGES_ABOVE, MOST_PAGES_BELOW, SUBPOOL_NUMBERS};
use mvs_model::place::{Addr, Place};
use mvs_model::report::{MapRun, SubpoolLine};
use mvs_model::request::Reply;
use mvs_model::subpool::SubNo;
use std::alloc::{AllocError, Global};
use std::slice;

/// Where 16 megabytes end.
const ABOVE: u32 = 0x100_0000;

/// The first address that is none.
const ADDRESSES: u32 = 1 << 31;

/// The most runs of pages that there can be: as many as pages.
const MOST_RUNS: u32 = MOST_PAGES_BELOW + MOST_PAGES_ABOVE;

/// The digits of a byte.
const DIGITS: &[u8] = b"0123456789ABCDEF";

// Returns the first run of pages after another one, if there is one.
fn run_after(job: &Job, run: &MapRun) -> Option<MapRun> {
    let end = run.addr.get().saturating_add(run.len);
    if end >= ADDRESSES {
        return None;
    }
    job.step().map_run(Addr::new(end))
}

// Puts a subpool, if there is one, into the object of what it has.
fn put_subpool(members: &mut Members, subpool: &Option<(SubNo, Name)>) -> Result<(), AllocError>
    ensures { members.new ≡ members.old }
{
    match subpool {
        Some((number, owner)) => {
            members.number("subpool", u32::from(number.get()))?;
            members.name("owner", owner)
        }
        None => Ok(()),
    }
}

// Writes the place of an area or a cell, and its subpool, into its object.
fn put_place(members: &mut Members, job: &Job, place: Place) -> Result<(), AllocError>
    ensures { members.new ≡ members.old }
{
    let addr = place.addr();
    members.number("address", addr.get())?;
    members.number("length", place.len())?;
    members.text("side", if addr.get() < ABOVE { "below" } else { "above" })?;
    put_subpool(members, &job.step().machine().page_subpool(addr))
}

// Writes the places that a request was granted.
fn put_areas(members: &mut Members, job: &Job, places: &[Place]) -> Result<(), AllocError>
    ensures { members.new ≡ members.old }
{
    members.begin_list("areas")?;
    for place in places {
        members.begin_item()?;
        put_place(members, job, *place)?;
        members.end_object()?;
    }
    members.end_list()
}

// Returns the places of areas in a reply, if it grants areas.
fn granted_areas(reply: &Reply) -> Option<&[Place]> {
    match reply {
        Reply::Obtained(place) => Some(slice::from_ref(place)),
        Reply::Listed(places) => Some(places.as_slice()),
        Reply::NotRun
        | Reply::Rc0
        | Reply::Rc4
        | Reply::Cell(_)
        | Reply::NoCell
        | Reply::Attached
        | Reply::Ended
        | Reply::Done
        | Reply::Abended(..) => None,
    }
}

// Returns the place of a cell in a reply, if it has one.
fn granted_cell(reply: &Reply) -> Option<Place> {
    match reply {
        Reply::Cell(place) => Some(*place),
        Reply::NotRun
        | Reply::Rc0
        | Reply::Rc4
        | Reply::Obtained(_)
        | Reply::Listed(_)
        | Reply::NoCell
        | Reply::Attached
        | Reply::Ended
        | Reply::Done
        | Reply::Abended(..) => None,
    }
}

// Writes a return code, and what was granted with it.
fn put_return(members: &mut Members, walk: &Walk, code: u32) -> Result<(), AllocError>
    ensures { members.new ≡ members.old }
{
    members.text("answer", "return_code")?;
    members.number("return_code", code)?;
    match (walk.job(), granted_areas(walk.reply())) {
        (Some(job), Some(places)) if code == 0 => put_areas(members, job, places),
        _ => Ok(()),
    }
}

// Writes a cell.
fn put_cell(members: &mut Members, walk: &Walk) -> Result<(), AllocError>
    ensures { members.new ≡ members.old }
{
    members.text("answer", "cell")?;
    match (walk.job(), granted_cell(walk.reply())) {
        (Some(job), Some(place)) => {
            members.begin_object("cell")?;
            put_place(members, job, place)?;
            members.end_object()
        }
        _ => Ok(()),
    }
}

// Bytes as hexadecimal digits.
fn hex_text(alloc: Global, bytes: &[u8]) -> Result<String, AllocError> {
    let mut text = String::new(alloc);
    for byte in bytes {
        for digit in [byte / 16, byte % 16] {
            text.push(char::from(DIGITS[digit as usize]))?;
        }
    }
    Ok(text)
}

// Writes the bytes that SHOW read.
fn put_data(
    alloc: Global,
    members: &mut Members,
    walk: &Walk,
    place: Place,
) -> Result<(), AllocError>
    ensures { members.new ≡ members.old }
{
    members.text("answer", "data")?;
    members.number("address", place.addr().get())?;
    let bytes = match walk.job() {
        Some(job) => job.step().bytes(place).unwrap_or(&[]),
        None => &[],
    };
    let text = hex_text(alloc, bytes)?;
    members.text("bytes", &text)
}

// Writes an abend, and the tasks that ended with it.
fn put_abend(members: &mut Members, walk: &Walk, code: Code) -> Result<(), AllocError>
    ensures { members.new ≡ members.old }
{
    members.text("answer", "abend")?;
    match code {
        Code::System(number) => members.number("system_code", u32::from(number))?,
        Code::User(number) => members.number("user_code", u32::from(number))?,
    }
    members.begin_list("fallen")?;
    for name in walk.fallen() {
        members.begin_item()?;
        members.name("task", name)?;
        members.end_object()?;
    }
    members.end_list()
}

// Writes a line of REPORT SP.
fn put_subpool_line(members: &mut Members, line: &SubpoolLine) -> Result<(), AllocError>
    ensures { members.new ≡ members.old }
{
    members.begin_item()?;
    members.number("subpool", u32::from(line.number.get()))?;
    members.boolean("owned", line.owned)?;
    members.number("plain", line.plain)?;
    members.number("pool", line.pool)?;
    members.end_object()
}

// Writes the lines of REPORT SP.
fn put_subpools(members: &mut Members, job: &Job, task: &Name) -> Result<(), AllocError>
    ensures { members.new ≡ members.old }
{
    members.begin_list("subpools")?;
    for from in 0..SUBPOOL_NUMBERS {
        match job.step().subpool_line(task, from) {
            Some(line) if line.number.get() == from => put_subpool_line(members, &line)?,
            _ => {}
        }
    }
    members.end_list()
}

// Writes the lines of REPORT MAP.
fn put_map(members: &mut Members, job: &Job) -> Result<(), AllocError>
    ensures { members.new ≡ members.old }
{
    members.begin_list("pages")?;
    let mut next = job.step().map_run(Addr::new(0));
    for _ in 0..MOST_RUNS {
        let Some(run) = next else {
            break;
        };
        members.begin_item()?;
        members.number("address", run.addr.get())?;
        members.number("length", run.len)?;
        put_subpool(members, &run.holder)?;
        members.end_object()?;
        next = run_after(job, &run);
    }
    members.end_list()
}

// Writes a report of the step that runs.
fn put_report(
    members: &mut Members,
    walk: &Walk,
    task: &Name,
    is_map: bool,
) -> Result<(), AllocError>
    ensures { members.new ≡ members.old }
{
    members.text("answer", if is_map { "map" } else { "subpools" })?;
    match walk.job() {
        Some(job) if is_map => put_map(members, job),
        Some(job) => put_subpools(members, job, task),
        None => Ok(()),
    }
}

/// Puts what a statement of a task is answered into its object.
pub fn put_answer(
    alloc: Global,
    members: &mut Members,
    walk: &Walk,
    task: &Name,
    answer: &Answer,
) -> Result<(), AllocError>
    ensures { members.new ≡ members.old }
{
    match answer {
        Answer::NotRun => members.text("answer", "not_run"),
        Answer::NoName => members.text("answer", "no_name"),
        Answer::At(addr) => {
            members.text("answer", "at")?;
            members.number("address", addr.get())
        }
        Answer::Rc0 => put_return(members, walk, 0),
        Answer::Granted(len) => {
            members.number("length", *len)?;
            put_return(members, walk, 0)
        }
        Answer::Rc4 => put_return(members, walk, 4),
        Answer::Cell => put_cell(members, walk),
        Answer::NoCell => members.text("answer", "no_cell"),
        Answer::Attached => members.text("answer", "attached"),
        Answer::Ended => members.text("answer", "ended"),
        Answer::Done => members.text("answer", "done"),
        Answer::Data(place) => put_data(alloc, members, walk, *place),
        Answer::Abended(code) => put_abend(members, walk, *code),
        Answer::Subpools => put_report(members, walk, task, false),
        Answer::Map => put_report(members, walk, task, true),
    }
}
