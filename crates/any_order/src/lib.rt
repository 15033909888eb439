// No code: between two fences stores may reach the memory in any order, as one theorem.
#![tactic(auto)]
