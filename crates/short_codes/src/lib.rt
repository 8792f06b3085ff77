// The codes of at most 8 bits: those of digits, letters and the commonest signs.
#![tactic(auto)]

pub mod code;
