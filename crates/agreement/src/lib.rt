// Theorems that tie what the data sheets fix to what document 01 says. Where the two part, docs/DIFFERENCES.md has a row. There is no code here:
// proofs/ has a file for each subject.

#![tactic(auto)]
