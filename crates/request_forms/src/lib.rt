//! The requests of a step: what each does with the storage, the tasks and the cell pools that the tasks of the step share, and for
//! what it is refused.
#![tactic(auto)]

mod access;
mod cells;
mod details;
mod facts;
mod holder;
mod machine;
mod members;
mod obtain;
mod obtain_list;
mod release;
mod report;
mod shortage;
mod subpool_labels;
mod subtasking;
mod unreleased;

pub use facts::OwnedSubpool;
pub use machine::Machine;
pub use obtain_list::{first_hint, no_shortfall};
pub use subpool_labels::FreePages;
