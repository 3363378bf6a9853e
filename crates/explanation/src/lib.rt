//! The text of explanations: why a request is refused, what a granted one changed, and what the end of a task freed.
#![tactic(auto)]

pub use crate::fact_lines::print_fact;
pub use crate::freed::{print_freed, print_stays};
pub use crate::naming::print_naming;
pub use crate::reasons::{Subject, print_reason, reason_text, subject_of};

mod fact_lines;
mod freed;
mod naming;
mod reasons;
