// What the calls of a recording say of the tables of both ends of a link, and the line at which one broke.
#![tactic(auto)]

pub mod ends;
pub mod events;
