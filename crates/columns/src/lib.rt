// Columns of numbers in lent memory: a number put in, one taken out, and all behind a place changed alike. Each change is one equation on the whole memory.
#![tactic(auto)]

pub mod column;
