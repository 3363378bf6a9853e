//! Cell pools in the storage of a subpool.
#![tactic(auto)]

mod copying;
mod entry;
pub mod laws;
mod laying;
mod newest;
mod open;
mod plan;
mod pools;
mod release;
mod report;
mod root;
mod take;
mod walk;
mod words;

pub use laying::part_want;
pub use plan::Plan;
pub use pools::{Pools, Supply};
