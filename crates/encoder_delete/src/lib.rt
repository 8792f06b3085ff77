// The encoder's delete call. `forms_encoder` is a clause here for the reason that `encoder` gives.
#![tactic(auto)]

pub mod delete;
