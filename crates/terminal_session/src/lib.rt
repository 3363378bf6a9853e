//! A session at a terminal: lines that are typed are run as they come, those that have a fault are reported and skipped, and a line
//! that begins with a dot is a command about the session.
#![tactic(auto)]

mod answers;
mod keeping;
pub mod laws;
mod leaks;
mod names;
mod origins;
mod picture;
mod replay;
mod running;
mod session;
mod switched;
mod tasks;

pub use crate::answers::{View, answer, banner, correction};
pub use crate::session::{Host, JobStop, TerminalSession};
pub use crate::switched::Switched;
