// The blocks of one part that wait.
ghost use Rattle.std.specs.Prelude.{◌≡◌, ◌<◌, eqb, IfSome, position};
ghost use Rattle.link_notes.specs.Notes.{has, added, dropped, any_sum};
ghost use Rattle.link_notes.specs.Parts.{none_waiting};

use crate::notes::KEPT;
use std::marker::Model;

// Stands for blocks that wait and are not known one by one. No sum is as large.
const UNKNOWN: u64 = u64::MAX;

// Their sums, 0 where there is none. These are no Options: `has` and `added` of specs/Notes.antt say what becomes of every sum, of 0 and of
// `UNKNOWN` too.
#[derive(Clone, Copy)]
pub struct Waiting {
    sums: [u64; KEPT],
}

impl Model for Waiting {
    ghost use Rattle.std.specs.Prelude.{ℕ, List};

    ghost Value = { List ℕ };

    ghost view = { λ w. w.sums };

    ghost inverse = { λ l. record { sums = l } };
}

impl Waiting {
    // None waits.
    pub fn new() -> Waiting
        ensures { result ≡ none_waiting }
    {
        Waiting { sums: [0; KEPT] }
    }

    pub fn has(&self, sum: u64) -> bool
        ensures { result ≡ has self.now sum }
    {
        self.sums.contains(&sum)
    }

    // The first place that is free.
    fn free(&self) -> Option<usize>
        ensures value { result ≡ position (λ x. eqb x 0) self.now }
        ensures bound { IfSome result (λ k. k < 4) }
    {
        self.sums.iter().position(|sum| *sum == 0)
    }

    // A sum, at the first place that is free. Where none is, they stand for blocks that are not known from then on.
    pub fn add(&mut self, sum: u64)
        ensures { self.new ≡ added self.old sum }
    {
        match self.free() {
            Some(k) => self.sums[k] = sum,
            None => self.sums[0] = UNKNOWN,
        }
    }

    // The sum waits no more.
    #[tactic(auto, unfolding(crate::specs::Notes::dropped))]
    pub fn take_away(&mut self, sum: u64)
        ensures { self.new ≡ dropped self.old sum }
    {
        self.sums = self.sums.map(|other| if other == sum { 0 } else { other });
    }

    pub fn any(&self) -> bool
        ensures { result ≡ any_sum self.now }
    {
        self.sums.iter().any(|sum| 0 < *sum)
    }
}
