//! Copies of what is kept of the pools.

ghost use Rattle.std.specs.Prelude.{◌≡◌, ◌≤◌, IfOk};
ghost use Rattle.slab.specs.Slab.{slab_len};
ghost use Rattle.mvs_model.specs.Numbers.{most_pools};

use crate::entry::PoolEntry;
use mvs_model::error::OutOfMemory;
use mvs_model::numbers::MOST_POOLS;
use slab::Slab;

// Returns a copy of the entries, each under its key, with space for 64 pools. It fails if memory is exhausted.
pub(crate) fn copy_entries(entries: &Slab<PoolEntry>) -> Result<Slab<PoolEntry>, OutOfMemory>
    requires { slab_len entries.now ≤ most_pools }
    ensures slots { IfOk result (λ copy. copy.slots ≡ entries.now.slots) }
    ensures capacity { IfOk result (λ copy. most_pools ≤ copy.capacity) }
{
    let mut copy = entries.clone().map_err(|_| OutOfMemory)?;
    let spare = MOST_POOLS - copy.len();
    copy.reserve_exact(spare).map_err(|_| OutOfMemory)?;
    Ok(copy)
}
