// The static table searched: the lowest entry with a name, or with a name and a value.
#![tactic(auto)]

pub mod lookup;
