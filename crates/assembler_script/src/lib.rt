//! The lines of the script that a source becomes, in their order, and the texts of those that a reader has to decide.
#![tactic(auto)]

mod marks;
mod script;

pub use crate::marks::{attach_mark, away_mark, branch_mark, loop_mark, return_mark};
pub use crate::script::{FoundLine, Requests, Saying, Script};
