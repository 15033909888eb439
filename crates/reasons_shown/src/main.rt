// Prints the sentence of each number that each call can return, for some arguments, and what it reads back as; how many
// numbers of each call are turned back; texts near to sentences; and the sentences of refusals that a store really gives.
#![tactic(auto)]

mod met;
mod odd;
mod samples;

fn main() {
    for call in 0..20 {
        samples::show_call(call);
    }
    odd::show_odd();
    met::show_met();
}
