// The host's field list: read and measured.
#![tactic(auto)]

pub mod read;
