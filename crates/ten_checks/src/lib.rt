// No code: document 01's ten checks.
#![tactic(auto)]
