//! The lines of change: what a statement did to the step, from which the page's script draws.

ghost use Rattle.std.specs.Prelude.{◌≡◌, ◌≤◌, ◌+◌, ◌++◌, OnOk, codes, decimal, length};
ghost use Rattle.mvs_model.specs.Name.{trimmed};
ghost use Rattle.std.specs.List.{flat_map};
ghost use Rattle.mvs_model.specs.Texts.{hex};
ghost use Rattle.page.specs.Lines.{carried, change_line, change_lines, change_text, has_text, place_text, read_bytes, residence_text, subpool_text_of};

use line_text::text::LineText;
use mvs_job::{Job, Walk};
use mvs_model::name::Name;
use mvs_model::place::{Addr, Place};
use mvs_model::subpool::SubNo;
use mvs_model::want::Residence;
use std::alloc::AllocError;

/// What a statement did. A subpool is named by the number under which its owner has it, and the owner; one that was not named
/// before is new, and its owner has it.
#[derive(Clone, Copy, Debug)]
pub enum Change {
    /// A step begins: the pages below and above, and the byte that a grant leaves.
    Step {
        below: u32,
        above: u32,
        fill: u8,
    },
    /// The job step task is active.
    First {
        name: Name,
        residence: Residence,
    },
    /// A subtask is active.
    Task {
        name: Name,
        mother: Name,
        residence: Residence,
    },
    /// A task owns the subpool that its mother had under the number, and the mother has it no more.
    Given {
        task: Name,
        number: SubNo,
        mother: Name,
    },
    /// A task has a subpool under a number, and shares it with its owner.
    Shared {
        task: Name,
        held: SubNo,
        number: SubNo,
        owner: Name,
    },
    /// An area is granted, and the name is set to it.
    Take {
        place: Place,
        number: SubNo,
        owner: Name,
        name: Name,
    },
    /// The doublewords of a place are free.
    Free {
        place: Place,
    },
    /// All that the subpool held is free, its pools are gone, and it stays.
    Empty {
        number: SubNo,
        owner: Name,
    },
    /// A cell pool is built, with cells of this size in bytes.
    Pool {
        name: Name,
        number: SubNo,
        owner: Name,
        size: u32,
    },
    /// The pool has a new part with this number of cells.
    Part {
        pool: Name,
        place: Place,
        cells: u32,
    },
    /// A cell is allocated, and the name is set to it.
    Cell {
        pool: Name,
        place: Place,
        name: Name,
    },
    /// A cell is given back.
    Back {
        pool: Name,
        cell: Addr,
    },
    /// The pool is gone, and its parts are free.
    Delete {
        pool: Name,
    },
    /// Bytes are read.
    Read {
        place: Place,
    },
    /// Bytes are written. The line carries them, as the step has them after it.
    Write {
        place: Place,
    },
    /// A place is shown.
    Look {
        place: Place,
    },
    /// A task has ended, by its own return; its subpools go.
    Return {
        task: Name,
    },
    /// A task has ended, by an abend; its subpools go.
    Abend {
        task: Name,
    },
    /// A task has ended because another one, above it, abended; its subpools go.
    Fall {
        task: Name,
        other: Name,
    },
}

// Appends the residence of a task.
fn push_residence(text: &mut LineText, residence: Residence)
    requires { length text.old ≤ 140 }
    ensures text { text.new ≡ text.old ++ residence_text residence }
    ensures len { length text.new ≤ length text.old + 10 }
{
    match residence {
        Residence::Below => text.push_str(b" RES BELOW"),
        Residence::Above => text.push_str(b" RES ABOVE"),
    }
}

// Appends an address and a length.
fn push_place(text: &mut LineText, place: Place)
    requires { length text.old ≤ 120 }
    ensures text { text.new ≡ text.old ++ place_text place }
    ensures len { length text.new ≤ length text.old + 17 }
{
    text.push_word(place.addr().get());
    text.push_str(b" ");
    text.push_word(place.len());
}

// Appends the number of a subpool.
fn push_number(text: &mut LineText, number: SubNo)
    requires { length text.old ≤ 140 }
    ensures text { text.new ≡ text.old ++ decimal number }
    ensures len { length text.new ≤ length text.old + 10 }
{
    text.push_decimal(u32::from(number.get()));
}

// Appends a subpool.
fn push_subpool(text: &mut LineText, number: SubNo, owner: &Name)
    requires { length text.old ≤ 120 }
    ensures text { text.new ≡ text.old ++ subpool_text_of number owner.now }
    ensures len { length text.new ≤ length text.old + 19 }
{
    push_number(text, number);
    text.push_str(b" ");
    text.push_name(owner);
}

// Appends that a task has something with a number.
fn push_has(text: &mut LineText, task: &Name, number: SubNo)
    requires { length text.old ≤ 2 }
    ensures text { text.new ≡ text.old ++ has_text task.now number }
    ensures len { length text.new ≤ length text.old + 23 }
{
    text.push_str(b"HAS ");
    text.push_name(task);
    text.push_str(b" ");
    push_number(text, number);
}

// Appends a word and a name.
fn push_of(text: &mut LineText, word: &[u8], name: &Name)
    requires old { length text.old ≤ 100 }
    requires word { length word.now ≤ 20 }
    ensures text { text.new ≡ text.old ++ (word.now ++ trimmed name.now) }
    ensures len { length text.new ≤ length text.old + (length word.now + 8) }
{
    text.push_str(word);
    text.push_name(name);
}

// Appends a word and a place.
fn push_at(text: &mut LineText, word: &[u8], place: Place)
    requires old { length text.old ≤ 100 }
    requires word { length word.now ≤ 20 }
    ensures text { text.new ≡ text.old ++ (word.now ++ place_text place) }
    ensures len { length text.new ≤ length text.old + (length word.now + 17) }
{
    text.push_str(word);
    push_place(text, place);
}

// Appends the beginning of a step.
fn push_step(text: &mut LineText, below: u32, above: u32, fill: u8)
    requires { length text.old ≤ 2 }
    ensures text { text.new ≡ text.old ++ change_text (Change.Step below above fill) }
    ensures len { length text.new ≤ length text.old + 100 }
{
    text.push_str(b"STEP BELOW ");
    text.push_decimal(below);
    text.push_str(b" ABOVE ");
    text.push_decimal(above);
    text.push_str(b" FILL ");
    text.push_byte(fill);
}

// Appends a change of tasks.
fn push_task(text: &mut LineText, name: &Name, mother: &Name, residence: Residence)
    requires { length text.old ≤ 2 }
    ensures text { text.new
        ≡ text.old ++ change_text (Change.Task name.now mother.now residence) }
    ensures len { length text.new ≤ length text.old + 100 }
{
    push_of(text, b"TASK ", name);
    push_of(text, b" MOTHER ", mother);
    push_residence(text, residence);
}

// Appends a granted area.
fn push_take(text: &mut LineText, place: Place, number: SubNo, owner: &Name, name: &Name)
    requires { length text.old ≤ 2 }
    ensures text { text.new
        ≡ text.old ++ change_text (Change.Take place number owner.now name.now) }
    ensures len { length text.new ≤ length text.old + 100 }
{
    push_at(text, b"TAKE ", place);
    text.push_str(b" ");
    push_subpool(text, number, owner);
    push_of(text, b" ", name);
}

// Appends a new cell pool.
fn push_pool(text: &mut LineText, name: &Name, number: SubNo, owner: &Name, size: u32)
    requires { length text.old ≤ 2 }
    ensures text { text.new
        ≡ text.old ++ change_text (Change.Pool name.now number owner.now size) }
    ensures len { length text.new ≤ length text.old + 100 }
{
    push_of(text, b"POOL ", name);
    text.push_str(b" ");
    push_subpool(text, number, owner);
    text.push_str(b" ");
    text.push_decimal(size);
}

// Appends a part of a cell pool.
fn push_part(text: &mut LineText, pool: &Name, place: Place, cells: u32)
    requires { length text.old ≤ 2 }
    ensures text { text.new ≡ text.old ++ change_text (Change.Part pool.now place cells) }
    ensures len { length text.new ≤ length text.old + 100 }
{
    push_of(text, b"PART ", pool);
    push_at(text, b" ", place);
    text.push_str(b" ");
    text.push_decimal(cells);
}

// Appends an allocated cell.
fn push_cell(text: &mut LineText, pool: &Name, place: Place, name: &Name)
    requires { length text.old ≤ 2 }
    ensures text { text.new ≡ text.old ++ change_text (Change.Cell pool.now place name.now) }
    ensures len { length text.new ≤ length text.old + 100 }
{
    push_of(text, b"CELL ", pool);
    push_at(text, b" ", place);
    push_of(text, b" ", name);
}

// Appends a change.
fn push_change(text: &mut LineText, change: &Change)
    requires { length text.old ≤ 2 }
    ensures text { text.new ≡ text.old ++ change_text change.now }
    ensures len { length text.new ≤ length text.old + 100 }
{
    match change {
        Change::Step { below, above, fill } => push_step(text, *below, *above, *fill),
        Change::First { name, residence } => {
            push_of(text, b"TASK ", name);
            text.push_str(b" MOTHER -");
            push_residence(text, *residence);
        }
        Change::Task {
            name,
            mother,
            residence,
        } => push_task(text, name, mother, *residence),
        Change::Given {
            task,
            number,
            mother,
        } => {
            push_has(text, task, *number);
            push_of(text, b" GIVEN ", mother);
        }
        Change::Shared {
            task,
            held,
            number,
            owner,
        } => {
            push_has(text, task, *held);
            text.push_str(b" SHARED ");
            push_subpool(text, *number, owner);
        }
        Change::Take {
            place,
            number,
            owner,
            name,
        } => push_take(text, *place, *number, owner, name),
        Change::Free { place } => push_at(text, b"FREE ", *place),
        Change::Empty { number, owner } => {
            text.push_str(b"EMPTY ");
            push_subpool(text, *number, owner);
        }
        Change::Pool {
            name,
            number,
            owner,
            size,
        } => push_pool(text, name, *number, owner, *size),
        Change::Part { pool, place, cells } => push_part(text, pool, *place, *cells),
        Change::Cell { pool, place, name } => push_cell(text, pool, *place, name),
        Change::Back { pool, cell } => {
            push_of(text, b"BACK ", pool);
            text.push_str(b" ");
            text.push_word(cell.get());
        }
        Change::Delete { pool } => push_of(text, b"DROP ", pool),
        Change::Read { place } => push_at(text, b"READ ", *place),
        Change::Write { place } => {
            push_at(text, b"WRITE ", *place);
            text.push_str(b" ");
        }
        Change::Look { place } => push_at(text, b"LOOK ", *place),
        Change::Return { task } => {
            push_of(text, b"END ", task);
            text.push_str(b" RETURN");
        }
        Change::Abend { task } => {
            push_of(text, b"END ", task);
            text.push_str(b" ABEND");
        }
        Change::Fall { task, other } => {
            push_of(text, b"END ", task);
            push_of(text, b" WITH ", other);
        }
    }
}

// Returns the bytes of a place, or none if they may not be read.
fn read_bytes(job: &Job, place: Place) -> &[u8]
    ensures { result.now ≡ read_bytes job.now place }
{
    match job.step().bytes(place) {
        Some(bytes) => bytes,
        None => &[],
    }
}

// Returns the bytes that the line of a change carries.
fn carried<'a>(walk: &'a Walk, change: &Change) -> &'a [u8]
    ensures { result.now ≡ carried walk.now.step change.now }
{
    match (walk.job(), change) {
        (Some(job), Change::Write { place }) => read_bytes(job, *place),
        (None, Change::Write { .. }) => &[],
        (
            _,
            Change::Step { .. }
            | Change::First { .. }
            | Change::Task { .. }
            | Change::Given { .. }
            | Change::Shared { .. }
            | Change::Take { .. }
            | Change::Free { .. }
            | Change::Empty { .. }
            | Change::Pool { .. }
            | Change::Part { .. }
            | Change::Cell { .. }
            | Change::Back { .. }
            | Change::Delete { .. }
            | Change::Read { .. }
            | Change::Look { .. }
            | Change::Return { .. }
            | Change::Abend { .. }
            | Change::Fall { .. },
        ) => &[],
    }
}

// Appends bytes, each as two hexadecimal digits.
fn push_bytes(lines: &mut Vec<u8>, bytes: &[u8]) -> Result<(), AllocError>
    ensures { OnOk result (lines.new.items ≡ lines.old.items ++ flat_map (hex 2) bytes.now) }
{
    let mut text = LineText::new();
    for byte in bytes {
        text.cut(0);
        text.push_byte(*byte);
        lines.extend_from_slice(text.as_slice())?;
    }
    Ok(())
}

// Appends the line of a change.
fn push_line(lines: &mut Vec<u8>, change: &Change, walk: &Walk) -> Result<(), AllocError>
    ensures { OnOk result
        (lines.new.items ≡ lines.old.items ++ change_line walk.now.step change.now) }
{
    let mut text = LineText::new();
    push_change(&mut text, change);
    lines.extend_from_slice(text.as_slice())?;
    push_bytes(lines, carried(walk, change))?;
    lines.extend_from_slice(b"\n")
}

/// Appends the lines of changes of the last line that the walk served.
pub fn push_lines(lines: &mut Vec<u8>, changes: &[Change], walk: &Walk) -> Result<(), AllocError>
    ensures { OnOk result
        (lines.new.items ≡ lines.old.items ++ change_lines walk.now.step changes.now) }
{
    for change in changes {
        push_line(lines, change, walk)?;
    }
    Ok(())
}
