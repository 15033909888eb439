// A line of powerhit's script performed, and what its stores count for (request L12).
#![tactic(auto)]

mod shares;
pub mod turning;
