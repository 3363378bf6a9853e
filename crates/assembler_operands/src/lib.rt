//! The operands of the macros of storage by their keys, the names of a script for symbols, and why a request is not converted.
#![tactic(auto)]

mod names;
mod operands;
mod reason;

pub use crate::names::{NoName, SymbolNames, put_name};
pub use crate::operands::{Keys, MacroOperands};
pub use crate::reason::{OpenCause, OpenReason, Unsaid};
