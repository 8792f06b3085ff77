// Fields whose bytes stand in order already, copied into the host's list.
#![tactic(auto)]

pub mod write;
