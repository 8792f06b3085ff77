// The encoder's insert call. `forms_encoder` is a clause here for the reason that `encoder` gives.
#![tactic(auto)]

pub mod insert;
