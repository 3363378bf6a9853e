//! The line that says why a request is refused.

ghost use Rattle.std.specs.Prelude.{◌≡◌, ◌≤◌, ◌<◌, ◌+◌, ◌++◌, ◌==◌, length, decimal};
ghost use Rattle.std.specs.List.{position_or_len};
ghost use Rattle.mvs_model.specs.Name.{trimmed};
ghost use Rattle.mvs_model.specs.Reasons.{number_of};
ghost use Rattle.mvs_model.specs.Subpool.{is_step_number};
ghost use Rattle.explanation.specs.ReasonTexts.{cell_of, holder_text, least_of, members_before, name_of, named, names_text, no_access_text, no_cell_text, no_member_text, no_part_text, no_subpool_text, not_held_text, not_owned_text, off_text, one_line, overlap_text, owner_text, reason_line, reason_words, room_text, sharing_text, shortage_text, spot_text, subtask_text, why_text};
ghost use Rattle.line_text.specs.Writing.{Prints};

use line_text::text::LineText;
use line_text::{is_same_name, write_all};
use memchr::memchr;
use mvs_model::name::Name;
use mvs_model::numbers::{FIRST_STEP_NUMBER, SECOND_STEP_NUMBER};
use mvs_model::place::Addr;
use mvs_model::reason::{CellPosition, FreeSpace, Holder, LineReason, Reason, Shortfall};
use mvs_model::request::Request;
use mvs_model::subpool::SubNo;
use mvs_model::want::Side;
use mvs_model::watched::{Failed, Watched};
use std::io::Write;

/// What a request says that the reason of its refusal does not repeat.
#[derive(Clone, Copy, Debug, PartialEq, Eq)]
pub struct Subject {
    /// The number of the subpool that it names, or 0.
    pub number: u32,
    /// The least length of one area, rounded up, or 0.
    pub least: u32,
    /// The cell pool or the subtask that it names.
    pub name: Option<Name>,
    /// The cell that it names, or 0.
    pub cell: Addr,
}

// Makes the subject of a request that has no length and no cell.
fn plain_subject(number: u8, name: Option<Name>) -> Subject
    ensures number { result.number ≡ number }
    ensures name { result.name ≡ name }
    ensures rest { (result.least ≡ 0) × (result.cell ≡ 0) }
{
    Subject {
        number: u32::from(number),
        least: 0,
        name,
        cell: Addr::new(0),
    }
}

/// Returns what a request says that the reason of its refusal does not repeat.
pub fn subject_of(request: &Request) -> Subject
    ensures number { result.number ≡ number_of request.now }
    ensures least { result.least ≡ least_of request.now }
    ensures name { result.name ≡ name_of request.now }
    ensures cell { result.cell ≡ cell_of request.now }
{
    match request {
        Request::Obtain { number, ask, .. } => Subject {
            number: u32::from(*number),
            least: ask.want(Side::Below).least(),
            name: None,
            cell: Addr::new(0),
        },
        Request::ObtainList { number, .. }
        | Request::Release { number, .. }
        | Request::ReleaseList { number, .. }
        | Request::ReleaseWhole { number, .. } => plain_subject(*number, None),
        Request::Build { pool, number, .. } => plain_subject(*number, Some(*pool)),
        Request::Get { pool, .. } | Request::Delete { pool } => plain_subject(0, Some(*pool)),
        Request::Attach { name, .. } => plain_subject(0, Some(*name)),
        Request::Free { pool, cell } => Subject {
            number: 0,
            least: 0,
            name: Some(*pool),
            cell: *cell,
        },
        Request::Return
        | Request::Abend(_)
        | Request::Show { .. }
        | Request::Put { .. }
        | Request::Move { .. } => plain_subject(0, None),
    }
}

// Returns the number of the subpool that a request names.
fn number(request: &Request) -> u32
    ensures { result ≡ number_of request.now }
{
    subject_of(request).number
}

// Returns the least length of one area, rounded up.
fn least(request: &Request) -> u32
    ensures { result ≡ least_of request.now }
{
    subject_of(request).least
}

// Returns the cell of a request.
fn cell(request: &Request) -> u32
    ensures { result ≡ cell_of request.now }
{
    subject_of(request).cell.get()
}

// Appends the name of the cell pool or the subtask.
fn push_named(text: &mut LineText, request: &Request)
    requires { length text.old ≤ 100 }
    ensures text { text.new ≡ text.old ++ named request.now }
    ensures len { length text.new ≤ length text.old + 8 }
{
    if let Some(name) = subject_of(request).name {
        text.push_name(&name);
    }
}

// Appends the holder of a doubleword.
fn push_holder(text: &mut LineText, holder: &Holder)
    requires { length text.old ≤ 100 }
    ensures text { text.new ≡ text.old ++ holder_text holder.now }
    ensures len { length text.new ≤ length text.old + 40 }
{
    match holder {
        Holder::Nobody => text.push_str(b" is free"),
        Holder::Outside => text.push_str(b" lies in no region"),
        Holder::Subpool(number, owner) => {
            text.push_str(b" is held by SP ");
            text.push_decimal(u32::from(number.get()));
            text.push_str(b" of ");
            text.push_name(owner);
        }
        Holder::Unowned => text.push_str(b" is held by a subpool of no task"),
        Holder::Part(name) => {
            text.push_str(b" is in pool ");
            text.push_name(name);
        }
    }
}

// Appends the free runs and pages, and the beginning of the rules.
fn push_room(text: &mut LineText, room: &FreeSpace)
    requires { length text.old ≤ 157 }
    ensures text { text.new ≡ text.old ++ room_text room.now }
    ensures len { length text.new ≤ length text.old + 80 }
{
    text.push_str(b"; free runs: ");
    text.push_decimal(room.runs);
    text.push_str(b"; free pages: ");
    text.push_decimal(room.below);
    text.push_str(b" below, ");
    text.push_decimal(room.above);
    text.push_str(b" above. (");
}

// Appends that a length does not fit.
fn push_shortage(text: &mut LineText, request: &Request, room: &FreeSpace)
    requires { length text.old ≤ 2 }
    ensures text { text.new ≡ text.old ++ shortage_text request.now room.now }
    ensures len { length text.new ≤ length text.old + 237 }
{
    text.push_decimal(least(request));
    text.push_str(b" bytes requested in SP ");
    text.push_decimal(number(request));
    text.push_str(b", but the largest area that fits has ");
    text.push_decimal(room.longest);
    text.push_str(b" bytes");
    push_room(text, room);
    text.push_str(b"rule 12)");
}

// Appends that other members of a list are before one.
fn push_before(text: &mut LineText, member: u32)
    requires { length text.old ≤ 100 }
    ensures text { text.new ≡ text.old ++ members_before member }
    ensures len { length text.new ≤ length text.old + 28 }
{
    if member != 1 {
        text.push_str(b"after the members before it ");
    }
}

// Appends that a member of a list does not fit.
fn push_no_member(text: &mut LineText, member: u32, short: &Shortfall)
    requires { length text.old ≤ 2 }
    ensures text { text.new ≡ text.old ++ no_member_text member short.now }
    ensures len { length text.new ≤ length text.old + 237 }
{
    text.push_str(b"Member ");
    text.push_decimal(member);
    text.push_str(b" of the list requests ");
    text.push_decimal(short.bytes);
    text.push_str(b" bytes, but ");
    push_before(text, member);
    text.push_str(b"the largest area that fits has ");
    text.push_decimal(short.room.longest);
    text.push_str(b" bytes");
    push_room(text, &short.room);
    text.push_str(b"rule 22)");
}

// Appends that a part of a pool does not fit.
fn push_no_part(text: &mut LineText, request: &Request, cells: u32, size: u32, room: &FreeSpace)
    requires { length text.old ≤ 2 }
    ensures text { text.new ≡ text.old ++ no_part_text request.now cells size room.now }
    ensures len { length text.new ≤ length text.old + 237 }
{
    text.push_str(b"Pool ");
    push_named(text, request);
    text.push_str(b": no room for ");
    text.push_decimal(cells);
    text.push_str(b" cells of ");
    text.push_decimal(size);
    text.push_str(b" bytes; the largest area that fits has ");
    text.push_decimal(room.longest);
    text.push_str(b" bytes");
    push_room(text, room);
    text.push_str(b"rules 59, 61)");
}

// Appends that an address is not on a doubleword.
fn push_off(text: &mut LineText, addr: Addr)
    requires { length text.old ≤ 2 }
    ensures text { text.new ≡ text.old ++ off_text addr }
    ensures len { length text.new ≤ length text.old + 237 }
{
    let addr = addr.get();
    text.push_word(addr);
    text.push_str(b" is not on a doubleword: offset ");
    text.push_decimal(addr % 8);
    text.push_str(b" from ");
    text.push_word(8 * (addr / 8));
    text.push_str(b". (rule 29)");
}

// Returns whether a number is one of the job step task's.
fn is_step_number(number: u32) -> bool
    ensures { result ≡ is_step_number number }
{
    number == u32::from(FIRST_STEP_NUMBER) || number == u32::from(SECOND_STEP_NUMBER)
}

// Appends that a task shares a subpool, if it does.
fn push_sharing(text: &mut LineText, task: &Name, number: u32, owner: &Name)
    requires { length text.old ≤ 120 }
    ensures text { text.new ≡ text.old ++ sharing_text task.now number owner.now }
    ensures len { length text.new ≤ length text.old + 24 }
{
    if is_same_name(task, owner) || is_step_number(number) {
        return;
    }
    text.push_str(b", which ");
    text.push_name(task);
    text.push_str(b" shares,");
}

// Appends the owner of the subpool that a task means by a number.
fn push_owner(text: &mut LineText, task: &Name, number: u32, owner: Option<Name>)
    requires { length text.old ≤ 100 }
    ensures text { text.new ≡ text.old ++ owner_text task.now number owner }
    ensures len { length text.new ≤ length text.old + 40 }
{
    match owner {
        Some(owner) => {
            text.push_name(&owner);
            push_sharing(text, task, number, &owner);
        }
        None => text.push_str(b"no task"),
    }
}

// Appends that the subpool which a task means does not hold a doubleword.
fn push_not_held(
    text: &mut LineText,
    task: &Name,
    number: u32,
    addr: Addr,
    holder: &Holder,
    owner: Option<Name>,
)
    requires { length text.old ≤ 2 }
    ensures text { text.new ≡ text.old ++ not_held_text task.now number addr holder.now owner }
    ensures len { length text.new ≤ length text.old + 237 }
{
    text.push_word(addr.get());
    push_holder(text, holder);
    text.push_str(b"; SP ");
    text.push_decimal(number);
    text.push_str(b" of ");
    push_owner(text, task, number, owner);
    text.push_str(b" does not hold it outside cell pools. (rules 26, 66)");
}

// Appends that members of a list overlap.
fn push_overlap(text: &mut LineText, one: Addr, other: Addr, addr: Addr)
    requires { length text.old ≤ 2 }
    ensures text { text.new ≡ text.old ++ overlap_text one other addr }
    ensures len { length text.new ≤ length text.old + 237 }
{
    text.push_str(b"The members at ");
    text.push_word(one.get());
    text.push_str(b" and ");
    text.push_word(other.get());
    text.push_str(b" both contain the doubleword at ");
    text.push_word(addr.get());
    text.push_str(b". (rule 32)");
}

// Appends the name of the cell pool or the subtask, with texts before and after it.
fn push_of(text: &mut LineText, before: &[u8], request: &Request, after: &[u8])
    requires old { length text.old ≤ 8 }
    requires before { length before.now ≤ 40 }
    requires after { length after.now ≤ 60 }
    ensures text { text.new ≡ text.old ++ (before.now ++ named request.now ++ after.now) }
    ensures len { length text.new ≤ length text.old + 237 }
{
    text.push_str(before);
    push_named(text, request);
    text.push_str(after);
}

// Appends a number, with texts before and after it.
fn push_number(text: &mut LineText, before: &[u8], number: u32, after: &[u8])
    requires old { length text.old ≤ 70 }
    requires before { length before.now ≤ 55 }
    requires after { length after.now ≤ 25 }
    ensures text { text.new ≡ text.old ++ (before.now ++ decimal number ++ after.now) }
    ensures len { length text.new
        ≤ length text.old + length before.now + length after.now + 10 }
{
    text.push_str(before);
    text.push_decimal(number);
    text.push_str(after);
}

// Appends a task, with a text after it.
fn push_task(text: &mut LineText, task: &Name, after: &[u8])
    requires old { length text.old ≤ 60 }
    requires after { length after.now ≤ 80 }
    ensures text { text.new ≡ text.old ++ (trimmed task.now ++ after.now) }
    ensures len { length text.new ≤ length text.old + length after.now + 8 }
{
    text.push_name(task);
    text.push_str(after);
}

// Appends where an address is, if no taken cell begins there.
fn push_spot(text: &mut LineText, spot: &CellPosition)
    requires { length text.old ≤ 100 }
    ensures text { text.new ≡ text.old ++ spot_text spot.now }
    ensures len { length text.new ≤ length text.old + 40 }
{
    match spot {
        CellPosition::Untaken => text.push_str(b"that cell is free"),
        CellPosition::Inside(first) => {
            text.push_str(b"it is inside the cell at ");
            text.push_word(first.get());
        }
        CellPosition::Elsewhere => text.push_str(b"it is in no cell of the pool"),
    }
}

// Appends that no taken cell begins at the address of a request.
fn push_no_cell(text: &mut LineText, request: &Request, spot: &CellPosition)
    requires { length text.old ≤ 2 }
    ensures text { text.new ≡ text.old ++ no_cell_text request.now spot.now }
    ensures len { length text.new ≤ length text.old + 237 }
{
    text.push_str(b"No allocated cell of pool ");
    push_named(text, request);
    text.push_str(b" begins at ");
    text.push_word(cell(request));
    text.push_str(b": ");
    push_spot(text, spot);
    text.push_str(b". (rule 63)");
}

// Appends that a task has no subpool with the number of a request.
fn push_no_subpool(text: &mut LineText, request: &Request, effective_task: &Name)
    requires { length text.old ≤ 2 }
    ensures text { text.new ≡ text.old ++ no_subpool_text request.now effective_task.now }
    ensures len { length text.new ≤ length text.old + 237 }
{
    text.push_name(effective_task);
    text.push_str(b" has no subpool ");
    text.push_decimal(number(request));
    text.push_str(b". (rule 26)");
}

// Appends that a task only shares a subpool that it gives.
fn push_not_owned(text: &mut LineText, task: &Name, number: SubNo, owner: &Name)
    requires { length text.old ≤ 2 }
    ensures text { text.new ≡ text.old ++ not_owned_text task.now number owner.now }
    ensures len { length text.new ≤ length text.old + 237 }
{
    text.push_name(task);
    text.push_str(b" shares SP ");
    text.push_decimal(u32::from(number.get()));
    text.push_str(b", and only its owner ");
    text.push_name(owner);
    text.push_str(b" can give it. (rule 48)");
}

// Appends that a subtask of a task is active.
fn push_subtask(text: &mut LineText, task: &Name, subtask: &Name)
    requires { length text.old ≤ 2 }
    ensures text { text.new ≡ text.old ++ subtask_text task.now subtask.now }
    ensures len { length text.new ≤ length text.old + 237 }
{
    text.push_name(subtask);
    text.push_str(b", a subtask of ");
    text.push_name(task);
    text.push_str(b", is active. (rule 54)");
}

// Appends that a byte cannot be accessed.
fn push_no_access(text: &mut LineText, addr: Addr, holder: &Holder)
    requires { length text.old ≤ 2 }
    ensures text { text.new ≡ text.old ++ no_access_text addr holder.now }
    ensures len { length text.new ≤ length text.old + 237 }
{
    text.push_word(addr.get());
    push_holder(text, holder);
    text.push_str(b"; only obtained storage and allocated cells can be accessed. (rule 38)");
}

// Appends why a request for cells or of a subtask is refused.
fn push_named_reason(text: &mut LineText, request: &Request, reason: &Reason)
    requires { length text.old ≤ 2 }
    ensures text { text.new ≡ text.old ++ names_text request.now reason.now }
    ensures len { length text.new ≤ length text.old + 237 }
{
    match reason {
        Reason::PoolInUse => push_of(text, b"A pool ", request, b" already exists. (rule 68)"),
        Reason::NoPool => push_of(text, b"There is no pool ", request, b". (rule 63)"),
        Reason::NoFreeCell => push_of(
            text,
            b"No cell of pool ",
            request,
            b" is free, and COND does not add a part. (rule 60)",
        ),
        Reason::NoTakenCell(spot) => push_no_cell(text, request, spot),
        Reason::NoPart(cells, size, room) => push_no_part(text, request, *cells, *size, room),
        Reason::TaskInUse => push_of(text, b"A task ", request, b" is already active. (rule 51)"),
        Reason::TooManyPools => {
            text.push_str(b"64 pools exist, which is the limit. (rule 68)");
        }
        Reason::TooManyTasks => {
            text.push_str(b"32 tasks are active, which is the limit. (rule 51)");
        }
        Reason::WholeOfZero => text.push_str(b"SP 0 cannot be released as a whole. (rule 35)"),
        Reason::NotActive
        | Reason::InvalidNumber
        | Reason::Shortage(_)
        | Reason::NoMember(..)
        | Reason::OffDoubleword(_)
        | Reason::NoSubpool(_)
        | Reason::NotHeld(..)
        | Reason::Overlap(..)
        | Reason::NotOwned(..)
        | Reason::ActiveSubtask(_)
        | Reason::Asked
        | Reason::NoAccess(..) => {}
    }
}

// Appends why a request of a task is refused.
fn push_reason(text: &mut LineText, task: &Name, request: &Request, reason: &Reason)
    requires { length text.old ≤ 2 }
    ensures text { text.new ≡ text.old ++ reason_words task.now request.now reason.now }
    ensures len { length text.new ≤ length text.old + 237 }
{
    match reason {
        Reason::NotActive => push_task(
            text,
            task,
            b" is not active: it has ended, or was never attached. (rule 73)",
        ),
        Reason::InvalidNumber => push_number(
            text,
            b"A program can use SP 0 to 127, 131 and 132, but not ",
            number(request),
            b". (rule 8)",
        ),
        Reason::Shortage(room) => push_shortage(text, request, room),
        Reason::NoMember(member, short) => push_no_member(text, *member, short),
        Reason::OffDoubleword(addr) => push_off(text, *addr),
        Reason::NoSubpool(effective_task) => push_no_subpool(text, request, effective_task),
        Reason::NotHeld(addr, holder, owner) => {
            push_not_held(text, task, number(request), *addr, holder, *owner);
        }
        Reason::Overlap(one, other, addr) => push_overlap(text, *one, *other, *addr),
        Reason::NotOwned(number, owner) => push_not_owned(text, task, *number, owner),
        Reason::ActiveSubtask(subtask) => push_subtask(text, task, subtask),
        Reason::Asked => push_task(text, task, b" requests this abend. (rule 55)"),
        Reason::NoAccess(addr, holder) => push_no_access(text, *addr, holder),
        Reason::PoolInUse
        | Reason::NoPool
        | Reason::NoFreeCell
        | Reason::NoTakenCell(_)
        | Reason::NoPart(..)
        | Reason::TaskInUse
        | Reason::TooManyPools
        | Reason::TooManyTasks
        | Reason::WholeOfZero => push_named_reason(text, request, reason),
    }
}

// Appends why a line of a task is not executed as it asks.
fn push_why(text: &mut LineText, task: &Name, request: &Request, reason: &LineReason)
    requires { length text.old ≤ 2 }
    ensures text { text.new ≡ text.old ++ why_text task.now request.now reason.now }
    ensures len { length text.new ≤ length text.old + 237 }
{
    match reason {
        LineReason::NotSet(name) => push_task(
            text,
            name,
            b" is not set: no granted request of this step set it. (rule 74)",
        ),
        LineReason::Refused(reason) => push_reason(text, task, request, reason),
    }
}

// Returns the number of bytes before the first newline.
fn line_len(bytes: &[u8]) -> usize
    ensures len { result ≡ position_or_len (λ b. b == 10) bytes.now }
    ensures within { result ≤ length bytes.now }
{
    match memchr(b'\n', bytes) {
        Some(end) => end,
        None => bytes.len(),
    }
}

/// Makes one line of a text.
pub fn end_line(text: &mut LineText)
    requires { length text.old < 240 }
    ensures { text.new ≡ one_line text.old }
{
    let len = line_len(text.as_slice());
    text.cut(len);
    text.push(b'\n');
}

/// Returns the line that says why a line of a task is not executed as it asks.
pub fn reason_text(task: &Name, request: &Request, reason: &LineReason) -> LineText
    ensures { result ≡ reason_line task.now request.now reason.now }
{
    let mut text = LineText::new();
    text.push_str(b"* ");
    push_why(&mut text, task, request, reason);
    end_line(&mut text);
    text
}

/// Prints that line.
pub fn print_reason<W: Write>(
    writer: &mut Watched<W>,
    task: &Name,
    request: &Request,
    reason: &LineReason,
) -> Result<(), Failed>
    ensures { Prints W.contents writer.old writer.new result
        (reason_line task.now request.now reason.now) }
{
    let text = reason_text(task, request, reason);
    write_all(writer, text.as_slice())
}
