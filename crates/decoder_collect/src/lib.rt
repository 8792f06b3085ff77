// The collect call: frees the ready entry whose delete arrived first and writes its acknowledgement.
#![tactic(auto)]

pub mod collect;
