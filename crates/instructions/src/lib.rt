// Instructions of the management stream, and the acknowledgements that come back, read.
#![tactic(auto)]

pub mod read;
