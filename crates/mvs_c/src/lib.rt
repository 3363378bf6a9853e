//! The machine for programs in C, C++ and Rust: include/mvs.h declares the functions that this library exports.
#![tactic(auto)]

mod access;
mod ask;
mod asked;
mod baseline;
mod box_parts;
mod buffer;
mod byte_use;
mod effect;
mod effect_exports;
mod effect_walk;
mod effects;
mod event;
mod exports;
mod field;
mod handle;
mod held;
mod last;
mod last_name;
mod last_reason;
pub mod laws;
mod lend;
mod list;
mod list_exports;
mod list_statement;
mod member;
mod open;
mod owned_list;
mod page_exports;
mod pages;
mod pool;
mod reason;
mod recorder;
mod region;
mod statement;
mod status;
mod whole;
