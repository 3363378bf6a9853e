//! Writes a script as an HLASM program with its JCL: each step is a program that issues the same macros in the same tasks, and tells
//! each reply by WTO. docs/FROM-ASSEMBLER.md says how it is run.
#![tactic(auto)]

mod bytes;
mod cards;
mod names;
mod obtains;
mod pools;
mod program;
mod releases;
mod step;
mod tasks;
mod texts;

pub use crate::cards::ProgramFault;
pub use crate::program::write_program;
