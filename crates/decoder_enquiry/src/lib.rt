// The decoder's enquiry: what holds an entry under deletion.
#![tactic(auto)]

pub mod enquiry;
