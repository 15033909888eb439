// No code: what leftovers in the image cannot change (request L13), as one theorem.
#![tactic(auto)]
