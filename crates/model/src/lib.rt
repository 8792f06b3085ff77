// No code: what the papers say of both tables stands in specs/, and their rules are computed of it in proofs/.
#![tactic(auto)]
