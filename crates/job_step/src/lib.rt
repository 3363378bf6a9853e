//! The step of a job: a request of a task in, a reply out.
#![tactic(auto)]

mod replying;
mod step;

pub use step::Step;
