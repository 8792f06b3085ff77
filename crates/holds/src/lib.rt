// Which parts of streams hold an entry under deletion: how many, and the lowest stream that has one.
#![tactic(auto)]

pub mod hold;
