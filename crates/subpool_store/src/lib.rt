//! Storage of both regions: obtain and release.
#![tactic(auto)]

mod copying;
mod counted;
mod dropping;
mod free_runs;
mod hinted;
mod memory;
mod region_store;
mod run;
mod search;
mod store;
mod subpool_counts;
mod walk;

pub use search::SearchResult;
pub use store::{NotHeld, Store};
