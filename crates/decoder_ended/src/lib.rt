// The decoder's calls by which a host says that a part of a stream is over, and that a stream has ended.
#![tactic(auto)]

pub mod ended;
pub mod over;
mod stream;
