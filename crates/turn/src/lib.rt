// Operations on a board, found and then done to the part of the board that they are about: no board goes in or out by value.
//
// finding.rt finds an operation's port or channel, working.rt has the work on one channel, in_place.rt does a turn to a board where it stands. The board's time after a catch-up or a
// run is `clock`'s, and ticks are worked off by `owed`. `on_board` serves a board by value (`calls`) and a trace's operations (`recorded`); a board in a host's bytes (`in_bytes`) uses the others.
#![tactic(auto)]

pub mod finding;
pub mod in_place;
pub mod working;

pub use in_place::on_board;
pub use working::work_on;
