// No code: an insert that keeps the limit finds fewer than 128 places held.
#![tactic(auto)]
