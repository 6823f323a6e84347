// Pieces of the input taken one after another: lines, frames, what is known of the day, and what is printed.
#![tactic(auto)]

mod lines;
mod state;
mod take;

pub use state::{Day, Desk, LONGEST, OUT_ROOM, Out};
