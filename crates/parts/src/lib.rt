// Parts of streams: which is in turn, and what closes them.
#![tactic(auto)]

pub mod close;
pub mod turn;
