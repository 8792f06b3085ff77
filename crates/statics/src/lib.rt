// The static table of RFC 7541, Appendix A: its text, and the places of its entries in it.
#![tactic(auto)]

pub mod table;
