// An operation asked for: laws of the definitions, which every crate that asks for one uses. No code.
#![tactic(auto)]
