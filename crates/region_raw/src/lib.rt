//! The bytes of a region in one block of raw memory: pages of 4096 bytes, each blank or open.
#![tactic(auto)]

mod block;
mod raw;
pub mod region;
