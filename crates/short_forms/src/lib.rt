// Short representations, looked for by both passes of the decoder before the reader is asked.
#![tactic(auto)]

pub mod short;
