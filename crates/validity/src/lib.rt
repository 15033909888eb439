// No code: row 8, what a valid state is (specs/, proofs/).
#![tactic(auto)]
