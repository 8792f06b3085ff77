// No code: what the encoder writes reads back.
#![tactic(auto)]
