// No code: further claims over whole lists of calls, on memory and bytes.
#![tactic(auto)]
