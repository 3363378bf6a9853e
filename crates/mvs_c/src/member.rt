//! The active tasks and the cell pools of the step that runs, one by one.

ghost use Rattle.std.specs.Prelude.{◌≡◌, ◌≢◌, MatchBool, Option};
ghost use Rattle.mvs_c.specs.Access.{ReturnsOne};
ghost use Rattle.mvs_c.specs.Reasons.{name_or_blank};
ghost use Rattle.mvs_c.specs.Members.{FindsPoolName, FindsTask, task_bytes};
ghost use Rattle.mvs_c.specs.declared.member.TaskFields.{TaskFields};
ghost use Rattle.mvs_model.specs.declared.name.Name.{Name as TheName};

use crate::ask::name_of;
use crate::open::Open;
use crate::status::{NO_MORE, OK};
use mvs_model::name::Name;

/// The number of bytes of a task for C.
const TASK_BYTES: u32 = 20;

/// An active task.
#[repr(C)]
#[derive(Clone, Copy)]
pub struct TaskFields {
    /// The number of bytes of this struct.
    pub size: u32,
    pub name: [u8; 8],
    /// The task that attached it; blank for the job step task.
    pub mother: [u8; 8],
}

impl TaskFields {
    /// Returns whether the size is that of a task.
    pub fn is_sized(&self) -> bool
        ensures { MatchBool result (self.now.size ≡ task_bytes) (self.now.size ≢ task_bytes) }
    {
        self.size == TASK_BYTES
    }
}

// Returns the name of a task, or blanks.
fn bytes_of(name: Option<Name>) -> [u8; 8]
    ensures { result ≡ name_or_blank name }
{
    match name {
        Some(name) => name.bytes(),
        None => [b' '; 8],
    }
}

// Returns the first active task after these bytes.
fn find_task(held: &Open, after: &[u8; 8]) -> Option<TaskFields>
    ensures { FindsTask held.now after.now result }
{
    let machine = held.job()?.step().machine();
    let name = machine.next_task(&name_of(after))?;
    Some(TaskFields {
        size: TASK_BYTES,
        name: name.bytes(),
        mother: bytes_of(machine.mother(&name).flatten()),
    })
}

// Returns the name of the first pool after these bytes.
fn find_pool_name(held: &Open, after: &[u8; 8]) -> Option<Name>
    ensures { FindsPoolName held.now after.now result }
{
    let machine = held.job()?.step().machine();
    machine.next_pool(&name_of(after))
}

/// Returns the first active task after these bytes.
pub fn copy_task(held: &Open, after: &[u8; 8], task: &mut TaskFields) -> u32
    ensures { (found : Option TaskFields) × FindsTask held.now after.now found
        × ReturnsOne found (λ t. t) task.old task.new result }
{
    match find_task(held, after) {
        Some(found) => {
            *task = found;
            OK
        }
        None => NO_MORE,
    }
}

/// Returns the name of the first pool after these bytes.
pub fn copy_pool_name(held: &Open, after: &[u8; 8], name: &mut [u8; 8]) -> u32
    ensures { (found : Option TheName) × FindsPoolName held.now after.now found
        × ReturnsOne found (λ n. n) name.old name.new result }
{
    match find_pool_name(held, after) {
        Some(found) => {
            *name = found.bytes();
            OK
        }
        None => NO_MORE,
    }
}
