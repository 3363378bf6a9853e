//! The memory that the program keeps from step to step.

use std::alloc::Global;

/// More bytes than the tables of a step need.
const LARGE: usize = 1 << 20;

// Allocates a large block, if there is memory for one. It is not inlined, since the compiler would leave it out.
#[inline(never)]
fn large_block(alloc: Global) -> Option<Vec<u8>> {
    Vec::with_capacity(alloc, LARGE).ok()
}

/// Has the C library keep two megabytes of what is freed, so that the tables of a step are not returned to the system and asked for
/// again at each step. It learns how much to keep from the size of a large block that is freed.
pub(crate) fn keep_freed_memory(alloc: Global) {
    drop(large_block(alloc));
}
