// The calls as a C host makes them: plain numbers and byte buffers in, one number out. Each is the call of its name; its answer and told numbers are joined in one number. `kolowrotan_c` exports them.
// Calls that differ in their names alone stand twice: the C interface has a name for each.
#![tactic(auto)]

pub mod decoder_calls;
pub mod encoder_calls;
pub mod lengths;
