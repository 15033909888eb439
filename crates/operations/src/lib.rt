// No code: the rows from 11 on of each operation, and the stores that it needs (specs/, proofs/).
#![tactic(auto)]
