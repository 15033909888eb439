// No code: what each operation and each call does, the reference machine, lists of calls, and the theorem over them (specs/, proofs/).
#![tactic(auto)]
