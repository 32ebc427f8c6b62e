// The board and the sheets' counter: over every list of calls, each channel's output and value are what the data sheets fix. There is no code here: specs/ has
// the statements, proofs/ a file for each subject.

#![tactic(auto)]
