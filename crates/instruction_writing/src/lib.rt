// Instructions of the management stream and acknowledgements, written.
#![tactic(auto)]

pub mod write;
