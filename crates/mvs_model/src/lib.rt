//! The storage machine: plain types and definitions.
#![tactic(auto)]

pub mod answer;
pub mod bounded;
pub mod card;
pub mod code;
pub mod codes;
pub mod error;
pub mod fact;
pub mod gifts;
pub mod line;
pub mod name;
pub mod next_name;
pub mod numbers;
pub mod outcome;
pub mod place;
pub mod reason;
pub mod refusal;
pub mod report;
pub mod request;
pub mod short_list;
pub mod subpool;
pub mod subpool_set;
pub mod table;
pub mod want;
pub mod watched;
