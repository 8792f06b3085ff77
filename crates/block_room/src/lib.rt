// No code: how much room the encoder's block call needs, by the field list alone.
#![tactic(auto)]
