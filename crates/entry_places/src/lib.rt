// What an index names, in the static table or in the header table: its name and value. Nothing is changed here.
#![tactic(auto)]

pub mod place;
