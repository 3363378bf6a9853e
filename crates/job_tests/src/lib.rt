//! Tests of the job as a library, with readers and writers in memory.
#![tactic(auto)]

#[cfg(test)]
mod running;
#[cfg(test)]
mod serving;
#[cfg(test)]
mod streams;
