// No code: laws of rounds tried on a store. What they leave in the pages depends on the rounds alone (specs/Pages.antt, of inputs specs/Inputs.antt), a round
// ends by 0, 11 or 22 (specs/Ends.antt), the numbers printed are plain sums (specs/Counts.antt), and stores go to the part they are counted for
// (specs/Places.antt).
#![tactic(auto)]
