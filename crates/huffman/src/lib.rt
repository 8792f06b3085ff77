// The code of RFC 7541, Appendix B.
#![tactic(auto)]

pub mod code;
