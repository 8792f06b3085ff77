// The test whether lent memory forms a state. What one step has found (`count ≤ 128`, `delete_count ≤ 256`, that texts start at 0) is a clause of the next, and no
// type: a count that is at most 128 would be read as `count.value` by each loop and definition, and the other two are facts of the memory, not of the count.
#![tactic(auto)]

pub mod decoder;
pub mod encoder;
pub mod forms;
