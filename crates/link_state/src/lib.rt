// The blocks of a link that were written (docs/RECORDINGS.md, "Hours"), and what of all that the gateway knows of it speaks against telling a
// message's hours.
#![tactic(auto)]

pub mod doubt;
pub mod written;
