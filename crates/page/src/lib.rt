//! Writes a script's run as a page: for each line what it prints, why, and what it did to storage and tasks.
#![tactic(auto)]

mod change;
mod changes;
mod frame;
mod item;
pub mod laws;
mod markup;
mod pages;

pub use frame::FRAME;
pub use pages::{PageItems, write_page, write_page_from};

/// The line after which the items of a second run follow, which the page compares with the first.
pub const SECOND_RUN: &str = "<hr id=\"with\">\n";
