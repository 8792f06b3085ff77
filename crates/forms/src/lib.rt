// No code: what is read has one form, given what it says and which of its strings are packed.
#![tactic(auto)]
