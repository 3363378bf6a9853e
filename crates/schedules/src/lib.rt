//! Runs the statements of each step of a script in every order, and counts the answers that occur.
#![tactic(auto)]

mod answered;
mod branch;
mod branching;
mod counting;
mod exploring;
mod in_order;
mod json;
mod machine;
mod next;
mod order;
mod ordered;
mod outcomes;
mod report;
mod script;
mod search;
mod step_line;
mod tally;
mod texts;

pub use answered::Answered;
pub use exploring::{Explored, explore};
pub use in_order::run_in_order;
pub use json::json_report;
pub use order::{OrderError, order_script};
pub use ordered::Ordered;
pub use report::{Verdict, text_report, verdict_of};
pub use script::ScheduleError;
pub use search::{StepSchedules, search_step};
pub use step_line::StepLine;
pub use tally::{Row, Tally};
