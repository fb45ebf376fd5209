// No code: what was demanded of the whole, stated and proved in proofs/, one file a demand.
#![tactic(auto)]
