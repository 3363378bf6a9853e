//! Laws of what is kept of the pools: each function has an empty body, and its contract is the law.

ghost use Rattle.cell_pool.specs.Laws.{PartsCarryPools, GrantKeeps, ReleaseKeeps, ReleaseAllKeeps, WriteKeeps, FewerAgree, NoneAgree, BuildIsStep, DropsSubpool, SplitsBytes};

/// What keeps the parts of the pools keeps the pools.
pub fn parts_carry_pools()
    ensures { PartsCarryPools }
{}

/// A grant keeps the parts of the pools.
pub fn grant_keeps()
    ensures { GrantKeeps }
{}

/// A release of a place that has nothing of a part keeps them.
pub fn release_keeps()
    ensures { ReleaseKeeps }
{}

/// The release of all of a subpool that has no pool keeps them.
pub fn release_all_keeps()
    ensures { ReleaseAllKeeps }
{}

/// A write of bytes that are in no part, or in a taken cell, keeps them.
pub fn write_keeps()
    ensures { WriteKeeps }
{}

/// Some of the pools agree with storage where all of them do.
pub fn fewer_agree()
    ensures { FewerAgree }
{}

/// No pools agree with any storage of a step.
pub fn none_agree()
    ensures { NoneAgree }
{}

/// What BUILD answers and leaves is the machine's step.
pub fn build_is_step()
    ensures { BuildIsStep }
{}

/// Where the records of a subpool's pools go, the machine's pools of this subpool go.
pub fn drops_subpool()
    ensures { DropsSubpool }
{}

/// What a subpool holds in parts of pools and outside of them is all that it holds.
pub fn splits_bytes()
    ensures { SplitsBytes }
{}
