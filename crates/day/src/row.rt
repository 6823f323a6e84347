// One row of a day list.
ghost use Rattle.std.specs.Prelude.{◌≡◌, ◌/◌, ◌<◌, length};
ghost use Rattle.rules.specs.Day.{row_width, row_at, sees};
ghost use Rattle.day.specs.Rows.{row_of, soundb, rightb};

use clock::{Length, Reading};

// How many numbers a row takes.
pub const ROW_WIDTH: usize = 5;

// How many rows a list holds at most.
pub const MOST_ROWS: usize = 2048;

// The greatest number of an owner or an asker.
pub const LAST_CLIENT: u32 = 255;

// A row as it stands in the list.
#[derive(Clone, Copy)]
pub struct Row {
    pub from: u32,
    pub to: u32,
    pub start: Reading,
    pub travel: Length,
    pub owner: u32,
}

// Row i of the list.
pub fn row_at(list: &[u32], i: usize) -> Row
    requires { i < length list.now / row_width }
    ensures { row_of result ≡ row_at list.now i }
{
    let at = i * ROW_WIDTH;
    Row {
        from: list[at],
        to: list[at + 1],
        start: Reading(list[at + 2]),
        travel: Length(list[at + 3]),
        owner: list[at + 4],
    }
}

impl Row {
    // Whether the asker sees the row.
    pub fn seen_by(self, asker: u32) -> bool
        ensures { result ≡ sees asker (row_of self) }
    {
        self.owner == 0 || self.owner == asker
    }

    // Whether the row is sound where there are n stops.
    #[tactic(auto, unfolding(crate::specs::Rows::soundb))]
    pub fn is_sound(self, n: u32) -> bool
        ensures { result ≡ soundb n (row_of self) }
    {
        self.from < n
            && self.to < n
            && self.from != self.to
            && self.travel >= Length(1)
            && self.start.plus(self.travel).is_some()
    }

    // Whether the row is sound, and starts at last or later. In this order its tests are joined without a jump for each.
    pub fn is_right(self, n: u32, last: Reading) -> bool
        ensures { result ≡ rightb n last.0 (row_of self) }
    {
        self.is_sound(n) && self.start >= last
    }
}
