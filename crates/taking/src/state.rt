// What was read so far, and the rooms for it.
ghost use Rattle.std.specs.Prelude.{◌≡◌, ◌*◌, ◌≤◌, length, replicate};
ghost use Rattle.rules.specs.Day.{most_rows, row_width};
ghost use Rattle.rules.specs.Pivots.{most_pivots};
ghost use Rattle.rules.specs.Lent.{scratch_places};
ghost use Rattle.taking.specs.Known.{pivot_width, Zeros, zeros_prop};
ghost use Rattle.taking.specs.Pieces.{longest};

use day::{MOST_ROWS, ROW_WIDTH};
use figures::{MOST_PIVOTS, PIVOT_WIDTH, SCRATCH};

// The length of the longest frame.
pub const LONGEST: usize = 28;

// A piece has at most 4,096 bytes, and each may end a line that prints one of at most 84 bytes.
pub const OUT_ROOM: usize = 344064;

pub type Out = [u8; OUT_ROOM];

// The stops, if they were given; how many rows and pivots there are; the number of the line, from
// 1, and how many of its bytes were read; how many bytes the piece has made to print.
#[derive(Clone, Copy)]
pub struct Day {
    pub stops: Option<u32>,
    pub rows: usize,
    pub pivots: usize,
    pub line: u64,
    pub len: usize,
    pub made: usize,
    pub ghost few_rows: { rows ≤ most_rows },
    pub ghost few_pivots: { pivots ≤ most_pivots },
    pub ghost short: { len ≤ longest },
}

// A day with its rooms: the bytes of the line, the rows and the pivots stand at the front of theirs,
// `scratch` is lent to each ask, and `out` is what to print.
#[derive(Drop)]
pub struct Desk {
    pub line: [u8; LONGEST],
    pub list: [u32; MOST_ROWS * ROW_WIDTH],
    pub pivots: [u32; MOST_PIVOTS * PIVOT_WIDTH],
    pub scratch: [u32; SCRATCH],
    pub out: Out,
    pub day: Day,
    pub ghost line_long: { length line ≡ longest },
    pub ghost list_long: { length list ≡ most_rows * row_width },
    pub ghost pivots_long: { length pivots ≡ most_pivots * pivot_width },
    pub ghost zeros: { Zeros scratch_places scratch } by { zeros_prop scratch_places scratch },
}

impl Day {
    ghost use Rattle.taking.specs.Room.{Begun};

    pub fn new() -> Self
        ensures { Begun result }
    {
        Day {
            stops: None,
            rows: 0,
            pivots: 0,
            line: 1,
            len: 0,
            made: 0,
        }
    }
}

impl Desk {
    ghost use Rattle.taking.specs.Room.{Begun, out_room};

    pub fn new() -> Self
        ensures begun { Begun result.day }
        ensures line { result.line ≡ replicate longest 0 }
        ensures list { result.list ≡ replicate (most_rows * row_width) 0 }
        ensures pivots { result.pivots ≡ replicate (most_pivots * pivot_width) 0 }
        ensures scratch { result.scratch ≡ replicate scratch_places 0 }
        ensures out { result.out ≡ replicate out_room 0 }
    {
        Desk {
            line: [0; LONGEST],
            list: [0; MOST_ROWS * ROW_WIDTH],
            pivots: [0; MOST_PIVOTS * PIVOT_WIDTH],
            scratch: [0; SCRATCH],
            out: [0; OUT_ROOM],
            day: Day::new(),
        }
    }
}
