// The decoder's block call: a header block in, a field list out.
#![tactic(auto)]

pub mod block;
