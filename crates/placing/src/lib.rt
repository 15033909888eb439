// No code: where the stores of each operation go, store by store (specs/Placing.antt).
#![tactic(auto)]
