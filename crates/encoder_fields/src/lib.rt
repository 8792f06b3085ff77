// The choice of a name, and that of a field's representation, measured and written.
#![tactic(auto)]

pub mod choice;
pub mod field;
pub mod measure;
pub mod name;
pub mod write;
