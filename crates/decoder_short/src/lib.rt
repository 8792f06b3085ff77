// A short header block decoded in one pass. A refused block must leave the output as it was, so the list is made in a buffer of its own and copied. What
// is not in a short form, or not to be done, is left to the two passes.
#![tactic(auto)]

pub mod block;
pub mod entry;
