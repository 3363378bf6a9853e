//! The text of a line, and how it is written.
#![tactic(auto)]

pub use crate::names::is_same_name;
pub use crate::print::{
    fault_digit, print_fault, print_line, print_region, print_step_end, push_head, write_all,
};

mod names;
mod print;
pub mod text;
