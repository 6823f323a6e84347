// A line of digits, read as the one frame that has it as its text.
ghost use Rattle.frames.specs.Text.{ReadPromise};

use crate::digits::{all_digits, number_at};

// A frame by its type.
#[derive(Clone, Copy, Debug, PartialEq, Eq)]
pub enum Frame {
    Stops(u32),
    Row {
        from: u32,
        to: u32,
        start: u32,
        travel: u32,
        owner: u32,
    },
    Pivot {
        stop: u32,
        reading: u32,
    },
    Ask {
        asker: u32,
        a: u32,
        w: u32,
    },
}

// The frame of a line, given without its newline. A type's frames have one length.
#[tactic(auto, using(crate::proofs::Laws::Outcomes::outcomes))]
pub fn read_frame(line: &[u8]) -> Option<Frame>
    ensures { ReadPromise line.now result }
{
    if line.len() < 2 || !all_digits(line) {
        return None;
    }
    match (number_at(line, 0, 2), line.len()) {
        (1, 6) => Some(Frame::Stops(number_at(line, 2, 4))),
        (2, 28) => Some(Frame::Row {
            from: number_at(line, 2, 4),
            to: number_at(line, 6, 4),
            start: number_at(line, 10, 8),
            travel: number_at(line, 18, 8),
            owner: number_at(line, 26, 2),
        }),
        (3, 14) => Some(Frame::Pivot {
            stop: number_at(line, 2, 4),
            reading: number_at(line, 6, 8),
        }),
        (4, 20) => Some(Frame::Ask {
            asker: number_at(line, 2, 2),
            a: number_at(line, 4, 8),
            w: number_at(line, 12, 8),
        }),
        _ => None,
    }
}
