// The reply to a block that was surveyed.
#![tactic(auto)]

pub mod replied;
