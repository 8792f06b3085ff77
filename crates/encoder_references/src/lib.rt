// The references of a block, entered in the table. `forms_encoder` is a clause here for the reason that `encoder` gives.
#![tactic(auto)]

pub mod refer;
