// No code: what the changes of the table leave in memory is the state that the model's step gives, over the old memory.
#![tactic(auto)]
