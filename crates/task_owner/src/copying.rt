//! Copies of the active tasks.

ghost use Rattle.std.specs.Prelude.{◌≡◌, ◌≤◌, IfOk};
ghost use Rattle.slab.specs.Slab.{slab_len};
ghost use Rattle.mvs_model.specs.Numbers.{most_tasks};

use crate::task_slot::TaskSlot;
use mvs_model::error::OutOfMemory;
use mvs_model::numbers::MOST_TASKS;
use slab::Slab;

// Returns a copy of the active tasks, each under its key, with space for 32 tasks. It fails if memory is exhausted.
pub(crate) fn copy_active(active: &Slab<TaskSlot>) -> Result<Slab<TaskSlot>, OutOfMemory>
    requires { slab_len active.now ≤ most_tasks }
    ensures slots { IfOk result (λ copy. copy.slots ≡ active.now.slots) }
    ensures capacity { IfOk result (λ copy. most_tasks ≤ copy.capacity) }
{
    let mut copy = active.clone().map_err(|_| OutOfMemory)?;
    let spare = MOST_TASKS - copy.len();
    copy.reserve_exact(spare).map_err(|_| OutOfMemory)?;
    Ok(copy)
}
