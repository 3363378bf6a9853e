//! Converts a request for storage of assembler source to a statement of a script, or reports why it cannot.
//! docs/FROM-ASSEMBLER.md has the operands.
#![tactic(auto)]

mod attach;
mod conversion;
mod cpool;
mod freemain;
mod getmain;
mod request;
mod storage;

pub use crate::attach::{Attached, GivenNames};
pub use crate::conversion::{Converted, convert};
