// No code: laws of program wear_by_frame. The stores counted are those that powerhit's listings of the same inputs tell (specs/Listings.antt), the numbers
// printed are plain sums (specs/Plain.antt), and each line copy counted is eight stores to one line (specs/Copies.antt).
#![tactic(auto)]
