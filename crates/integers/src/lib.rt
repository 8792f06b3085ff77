// The numbers of the draft: the numbered answers, stream numbers and table indexes, and the prefix integer; and a byte as a number.
#![tactic(auto)]

pub mod answer;
pub mod byte;
pub mod integer;
pub mod number;
