// Operations of a trace: the turn of each (finding.rt), and each made on a board with the event bytes that a trace lends (making.rt). The runner goes through them.
#![tactic(auto)]

mod finding;
pub mod making;

pub use finding::turn_of;
pub use making::{Made, make};
