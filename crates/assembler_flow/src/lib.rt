//! How the statements of assembler source follow one another: branches, loops, routines, sections and structured macros.
#![tactic(auto)]

mod flow;
mod layout;
mod lengths;
mod loops;
mod operations;
mod sections;
mod structures;

pub use crate::flow::{ENTRY_ADDRESS, Flow, RETURN_ADDRESS, Target, flow_of};
pub use crate::layout::{Layout, begins_section};
pub use crate::loops::{Loop, Loops};
pub use crate::sections::Sections;
