//! Processes assembler source, or a listing of it, along its paths, and converts each request for storage to a statement of a script,
//! or reports why it cannot. docs/FROM-ASSEMBLER.md has the operands.
#![tactic(auto)]

mod calls;
mod ends;
mod frames;
mod options;
mod walk;
mod way;

pub use crate::options::{Choices, Repeat, Schedule};
pub use crate::walk::find_requests;
pub use crate::way::ConversionRefusal;
pub use assembler_statements::{CopyMember, copied_members};
