//! The statements of a step.

use mvs_model::name::Name;

/// A statement of a script: the number of its line, its task, whether it is REGION, whether its answers are compared without addresses,
/// and the bytes of the line.
#[derive(Drop)]
pub struct StepLine {
    pub number: u32,
    pub task: Name,
    pub is_region: bool,
    pub ignores_addresses: bool,
    pub bytes: Vec<u8>,
}
