// What Intel's data sheets fix. There is no code here: specs/ has the definitions, drawn from docs/SHEETS.md and not from the Rust.

#![tactic(auto)]
