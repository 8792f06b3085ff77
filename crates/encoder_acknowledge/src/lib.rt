// The encoder's acknowledge call: an acknowledgement read. `forms_encoder` is a clause here for the reason that `encoder` gives.
#![tactic(auto)]

pub mod acknowledge;
