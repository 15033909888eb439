// Wide rounds (document 02, L14). First a round of five lines, its commit cut after each count of stores from 0 to 42: a line has the cut, the stores that
// the commit needs and those made, and what a recall shows of the five lines; then a mount, a run that is cut too, and the same; then again, run to its
// end, and the hash of the image. Then a list of calls, each with a run: first those of a table, a line each with the answer (the stores needed, or 1,000
// times the number of the refusal), the run's, the first word of the line as a recall and as a read show it, and the hash of the image; then those of a
// walk, of which every hundredth has a line with its place, a checksum of all numbers so far and the hash.
#![tactic(auto)]

mod calls;
mod cuts;
mod shown;
mod turns;

use state_words::WORD_COUNT;

fn main() {
    let mut image = [0u8; 25192];
    let mut words = [0u64; WORD_COUNT];
    cuts::show_cuts(&mut image, &mut words);
    turns::play(&mut image, &mut words);
}
