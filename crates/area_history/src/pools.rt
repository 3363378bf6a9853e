//! The cell pools that a step has built, and those that were never deleted.

ghost use Rattle.std.specs.Prelude.{◌≡◌, ◌<◌, ◌^◌, ◌++◌, [], take};
ghost use Rattle.area_history.specs.Pools.{pool_bytes, pool_left, pools_left, standing, standing_one, stands, with_pool};
ghost use Rattle.mvs_model.specs.Pools.{part_length};

use crate::first::push;
use crate::grant::Holdings;
use line_text::is_same_name;
use mvs_model::bounded::{CellCount, CellSize};
use mvs_model::name::Name;
use mvs_model::numbers::MOST_POOLS;
use mvs_model::short_list::ShortList;
use mvs_model::subpool::SubNo;

/// A cell pool, as a line built it.
#[derive(Clone, Copy, Debug, PartialEq, Eq)]
pub struct PoolBuild {
    pub pool: Name,
    /// The bytes of its first part, and of each further one.
    pub first: u64,
    pub further: u64,
    /// The number of the line.
    pub line: u32,
    pub task: Name,
    /// The number under which its owner has the subpool, and the owner.
    pub subpool: SubNo,
    pub owner: Name,
}

/// A cell pool that was never deleted, and how many parts it has.
#[derive(Clone, Copy, Debug, PartialEq, Eq)]
pub struct PoolLeft {
    pub built: PoolBuild,
    pub parts: u32,
}

/// Cell pools, each as the last line of its name built it.
pub(crate) type BuiltPools = ShortList<PoolBuild, 0, MOST_POOLS>;

/// Cell pools that were never deleted.
pub(crate) type LeftPools = ShortList<PoolLeft, 0, MOST_POOLS>;

// Makes a pool that fills the arrays.
fn filler() -> PoolBuild {
    let name = Name::of(b"NONE");
    PoolBuild {
        pool: name,
        first: 0,
        further: 0,
        line: 0,
        task: name,
        subpool: SubNo::of(0),
        owner: name,
    }
}

/// Makes an empty list of pools.
pub(crate) fn no_pools() -> BuiltPools
    ensures { result ≡ [] }
{
    BuiltPools::empty(filler())
}

/// Makes an empty list of pools that are left.
pub(crate) fn none_left() -> LeftPools
    ensures { result ≡ [] }
{
    LeftPools::empty(PoolLeft {
        built: filler(),
        parts: 0,
    })
}

// Returns whether a pool has parts, and another name than the next one.
fn stands<P: Holdings>(next: &Name, built: &PoolBuild, step: &P) -> bool
    ensures { result ≡ stands (P.parts step.now) next.now built.now }
{
    if is_same_name(&built.pool, next) {
        return false;
    }
    step.parts(&built.pool) != 0
}

// Appends a pool if it has parts, and another name than the next one, and there is room.
fn push_if_standing<P: Holdings>(list: &mut BuiltPools, next: &Name, built: &PoolBuild, step: &P)
    ensures { list.new ≡ take 64 (list.old ++ standing_one (P.parts step.now) next.now built.now) }
{
    let _ = list.as_slice();
    if stands(next, built, step) {
        push(list, built);
    }
}

// Appends the pools that a step still has, but for that of a name, as long as there is room.
fn push_standing<P: Holdings>(list: &mut BuiltPools, next: &Name, pools: &[PoolBuild], step: &P)
    ensures { list.new ≡ take 64 (list.old ++ standing (P.parts step.now) next.now pools.now) }
{
    let _ = list.as_slice();
    let Some((built, others)) = pools.split_first() else {
        return;
    };
    push_if_standing(list, next, built, step);
    push_standing(list, next, others, step);
}

/// Returns the pools that a step still has, and after them one that was built.
pub(crate) fn with_pool<P: Holdings>(pools: &BuiltPools, built: &PoolBuild, step: &P) -> BuiltPools
    ensures { result ≡ with_pool (P.parts step.now) pools.now built.now }
{
    let mut list = no_pools();
    push_standing(&mut list, &built.pool, pools.as_slice(), step);
    push(&mut list, built);
    list
}

// Appends a pool with its parts, if it has some and there is room.
fn push_left(list: &mut LeftPools, built: &PoolBuild, parts: u32)
    ensures { list.new ≡ take 64 (list.old ++ pool_left built.now parts) }
{
    let _ = list.as_slice();
    if parts != 0 {
        push(
            list,
            &PoolLeft {
                built: *built,
                parts,
            },
        );
    }
}

/// Appends the pools that a step still has, as long as there is room.
pub(crate) fn push_pools_left<P: Holdings>(list: &mut LeftPools, pools: &[PoolBuild], step: &P)
    ensures { list.new ≡ take 64 (list.old ++ pools_left (P.parts step.now) pools.now) }
{
    let _ = list.as_slice();
    let Some((built, others)) = pools.split_first() else {
        return;
    };
    push_left(list, built, step.parts(&built.pool));
    push_pools_left(list, others, step);
}

/// Returns the length of a part of a pool with cells of a size.
pub(crate) fn part_len(size: &CellSize, count: &CellCount) -> u64
    ensures { result ≡ part_length size.now count.now }
{
    let (size, count) = (u64::from(size.get()), u64::from(count.get()));
    16 + 8 * ((count + 63) / 64) + 8 * ((count * size + 7) / 8)
}

impl PoolLeft {
    /// Returns the bytes of its parts.
    pub fn bytes(&self) -> u128
        ensures { result ≡ pool_bytes self.now }
    {
        let parts = u128::from(self.parts.saturating_sub(1));
        u128::from(self.built.first) + parts * u128::from(self.built.further)
    }
}
