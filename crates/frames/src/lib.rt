// One line of hexadecimal to a frame.
#![tactic(auto)]

mod digits;
mod frame;

pub use frame::{Frame, read_frame};
