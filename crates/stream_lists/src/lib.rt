// Stream lists, read and written.
#![tactic(auto)]

pub mod stream_list;
