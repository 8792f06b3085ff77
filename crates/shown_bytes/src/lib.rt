// The form in which a byte of a field is shown.
#![tactic(auto)]

pub mod shown;
