// Writes to a channel's data port, and the load cycle that moves the value written to the counting element.
#![tactic(auto)]

mod cycle;
mod finalize;
mod write;

pub use cycle::{load_cycle, load_value};
pub use finalize::finalize_load;
pub use write::write_byte;
