// Runs masks and image on their edges and prints what they give, a line a case: its name, then numbers.
// tools/edges.py computes the same lines from document 01, with none of this code.
#![tactic(auto)]

mod layout_cases;
mod line_cases;
mod mask_cases;
mod out;
mod word_cases;

fn main() {
    word_cases::run();
    mask_cases::run();
    layout_cases::run();
    line_cases::run();
}
