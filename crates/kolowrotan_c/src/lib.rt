// The C library: each call of `kolowrotan` as a symbol that a C host links, with the same clauses.
// So each stands twice, here under its C name: the C interface needs it.
#![tactic(auto)]

pub mod decoder_calls;
pub mod encoder_calls;
pub mod lengths;
