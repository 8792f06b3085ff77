// The state memory of both ends: its places, and the numbers that stand in it.
// What stands where inside the head, the columns, a delete and a reference is known to `head`, `row`, `kept` and `reference` alone.
// How long the memory is (`text_place ≤ length m.now`, `front_length ≤ length m.old` and the like) is a clause of each function: a type that says so would hold the
// loan, be made anew after each write, and be proved there as the clause is now. So is `i < 128`: a row's place is a loop's counter at most callers.
#![tactic(auto)]

pub mod head;
pub mod kept;
pub mod layout;
pub mod reference;
pub mod row;
