//! The language of a session at a terminal: dot commands, what they do to the lines of the job, and lines as they are typed.
#![tactic(auto)]

mod ahead;
mod cleaning;
mod command;
mod edit;
mod help;
mod input;
mod meant;
mod script;

pub use crate::ahead::ByteReader;
pub use crate::cleaning::clean;
pub use crate::command::{Command, Correction, DotCommand, Misread, is_command, read_command};
pub use crate::edit::{ScriptEdit, edit_of};
pub use crate::help::Help;
pub use crate::input::LineInput;
pub use crate::meant::command_meant;
pub use crate::script::SessionScript;
