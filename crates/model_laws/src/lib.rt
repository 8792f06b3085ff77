// No code: what holds of the model in every state and every list of calls, from which demand 3 is proved.
#![tactic(auto)]
