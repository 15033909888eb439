// No code: cases T1 to T12 of document 01, as one theorem.
#![tactic(auto)]
