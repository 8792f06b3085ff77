// The start of an encoder's table. Its other calls are in crates of their own.
// What these do on memory that forms a state requires `forms_encoder` and takes no struct around that memory with it as a ghost field: such a struct would
// owe it again after each write, and a call promises what memory holds after it, not that it forms a state.
#![tactic(auto)]

pub mod start;
