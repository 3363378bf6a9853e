//! The areas that a step was granted, and those that were never released.
#![tactic(auto)]

mod account;
mod anywhere;
mod by_doubleword;
mod chronicle;
mod events;
mod findings;
mod first;
mod format;
mod grant;
mod historian;
mod history;
mod history_texts;
mod json;
mod json_history;
mod largest;
mod last_areas;
pub mod laws;
mod marks;
mod obtained;
mod owner_index;
mod pools;
mod release_index;
mod reporter;
mod run;
mod tally;
mod task_ends;
mod texts;
mod totals;

pub use account::{Account, Leftovers};
pub use chronicle::Chronicle;
pub use events::{StorageChange, StorageEvent, StorageEvents};
pub use findings::{AddressHistory, AreaFate, Findings, LastTwo};
pub use format::{JsonReport, ReportFormat, TextReport};
pub use grant::{AreaGrant, EndedTask, Holdings, Leak, Selection, TaskStart};
pub use historian::Historian;
pub use history::AreaHistory;
pub use largest::Leaks;
pub use pools::{PoolBuild, PoolLeft};
pub use reporter::Reporter;
pub use run::{LeakOutcome, StrictLeakOutcome, run_strictly_with_report, run_with_report};
pub use totals::{Group, Total};
