//! The symbols that a source defines, and the values of expressions and constants in which they are used.
#![tactic(auto)]

mod calculation;
mod constant;
mod symbols;
mod words;

pub use crate::calculation::{Value, number_of};
pub use crate::constant::literal_number;
pub use crate::symbols::{Symbol, Symbols, symbols_of};
pub use crate::words::{in_register, inside, is_symbol, register_of};
