//! Active tasks, the subpools that they have under their numbers, and the owners of the subpools.
#![tactic(auto)]

mod copying;
mod family;
mod freed;
mod handing;
mod skipping;
mod task_slot;
mod tasks;

pub use skipping::pass_none;
pub use tasks::{Gone, TaskId, Tasks};
