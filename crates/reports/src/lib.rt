// What a machine reports: which field lists are a report, and its hours.
#![tactic(auto)]

pub mod report;
mod said;
