// The passes over a field list: one measures the block where that is needed, one writes it and enters its references. `forms_encoder` is a clause here for the reason that `encoder` gives.
#![tactic(auto)]

pub mod write;
