//! Writes the script of a source, as text or as JSON: the region of the step, and a line for each line of the script.
#![tactic(auto)]

mod json;
mod output;
mod region;

pub use crate::output::{ScriptForm, ScriptStop, Sum, write_script};
pub use crate::region::{RegionPages, region_of};
