// No code: the slots of a valid state, one by one (specs/, proofs/).
#![tactic(auto)]
