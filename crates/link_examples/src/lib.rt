// No code: closed lists of calls, with what every call answers and writes.
#![tactic(auto)]
