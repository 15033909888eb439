// Frees slots in a list of calls: first those of a table, then those of a walk. A line for each call that frees a slot, prepares, confirms or
// withdraws has its answer (the stores that it needs, or 1,000 times the number of the refusal), the hash of the image after its run and a
// checksum of all answers so far.
#![tactic(auto)]

mod calls;
mod out;
mod turns;

fn main() {
    let mut image = [0u8; 41408];
    turns::play(&mut image);
}
