//! Tests of the store as a library, apart from it: `rt ci` proves a crate that has tests twice.
#![tactic(auto)]

#[cfg(test)]
mod calls;
