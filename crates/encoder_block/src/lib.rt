// The encoder's block call: a field list in, a header block out. `forms_encoder` is a clause here for the reason that `encoder` gives.
#![tactic(auto)]

pub mod block;
