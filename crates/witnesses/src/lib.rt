// No code: lists of calls that meet the premises of the theorems in `refinement`, and what they come to.
#![tactic(auto)]
