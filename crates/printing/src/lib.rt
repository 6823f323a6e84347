// The lines that the figures program prints, each put at a place of a room.
#![tactic(auto)]

mod text;

pub use text::{answer_line, frame_line, header_line};
