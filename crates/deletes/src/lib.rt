// The decoder's deletes, kept and dropped.
#![tactic(auto)]

pub mod kept;
