// No code: memory that forms a state is tied to the state that it stands for.
#![tactic(auto)]
