// One definition of a step of the board, and what is proved of every step: specs/ and proofs/. The code of each call stands in
// the crates board, clock and ports.

#![tactic(auto)]
