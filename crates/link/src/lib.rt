// No code: the claims over whole lists of calls, on memory and bytes.
#![tactic(auto)]
