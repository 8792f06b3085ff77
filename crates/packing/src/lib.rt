// Strings packed by the code of RFC 7541, Appendix B: the bytes, and how many there are.
#![tactic(auto)]

pub mod bits;
pub mod pack;
