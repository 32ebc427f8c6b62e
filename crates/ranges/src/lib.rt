// The numbers of a board fit their fields, whatever is done to it: so over every trace. There is no code here: specs/ has what is asked of a call, proofs/ a file for each subject.

#![tactic(auto)]
