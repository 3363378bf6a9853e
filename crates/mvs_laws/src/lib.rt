//! The laws of the storage machine, and small laws that show what its definitions mean.
#![tactic(auto)]

pub mod examples;
pub mod laws;
