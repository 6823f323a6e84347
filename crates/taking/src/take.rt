// Frames, taken one after another: stops, rows and pivots are kept, an ask is answered.
ghost use Rattle.std.specs.Prelude.{◌≡◌, ◌*◌, length};
ghost use Rattle.frames.specs.declared.frame.Frame.TheVariants.{Stops, Row, Pivot, Ask};
ghost use Rattle.taking.specs.Room.{Spare, PutMore, FrameTaken};

use crate::state::Desk;
use day::{MOST_ROWS, ROW_WIDTH};
use figures::{MOST_PIVOTS, PIVOT_WIDTH};
use frames::Frame;
use printing::answer_line;

// Puts one thing more after `count` of them, in a room for `most`. The answer is how many there are then, and none
// where the room is full.
fn put<const WIDTH: usize>(
    room: &mut [u32],
    count: usize,
    most: usize,
    numbers: [u32; WIDTH],
) -> Option<usize>
    requires whole { length room.old ≡ most * WIDTH }
    ensures { PutMore WIDTH numbers.entry count most room.old result room.new }
{
    if count >= most {
        return None;
    }
    let at = count * WIDTH;
    room[at..at + WIDTH].copy_from_slice(&numbers);
    Some(count + 1)
}

impl Desk {
    // The number of stops, first and once.
    #[tactic(auto, using(crate::specs::Laws::Steps::stops_done))]
    fn take_stops(&mut self, n: u32) -> Option<()>
        ensures { FrameTaken (Stops n) self.old result self.new }
    {
        if self.day.stops.is_some() {
            return None;
        }
        self.day.stops = Some(n);
        Some(())
    }

    #[tactic(auto, using(crate::specs::Laws::Steps::row_done))]
    fn take_row(&mut self, from: u32, to: u32, start: u32, travel: u32, owner: u32) -> Option<()>
        ensures { FrameTaken (Row from to start travel owner) self.old result self.new }
    {
        self.day.stops?;
        let row = [from, to, start, travel, owner];
        self.day.rows = put(&mut self.list, self.day.rows, MOST_ROWS, row)?;
        Some(())
    }

    #[tactic(auto, using(crate::specs::Laws::Steps::pivot_done))]
    fn take_pivot(&mut self, stop: u32, reading: u32) -> Option<()>
        ensures { FrameTaken (Pivot stop reading) self.old result self.new }
    {
        self.day.stops?;
        let pivot = [stop, reading];
        self.day.pivots = put(&mut self.pivots, self.day.pivots, MOST_PIVOTS, pivot)?;
        Some(())
    }

    #[tactic(auto, using(crate::specs::Laws::Steps::ask_done, crate::specs::Laws::Steps::wiped_zeros))]
    fn take_ask(&mut self, asker: u32, a: u32, w: u32) -> Option<()>
        requires spare { Spare 1 self.old.day }
        ensures { FrameTaken (Ask asker a w) self.old result self.new }
    {
        let n = self.day.stops?;
        let end = self.day.rows * ROW_WIDTH;
        let last = self.day.pivots * PIVOT_WIDTH;
        let list = &self.list[..end];
        let ask = figures::Ask {
            list,
            n,
            asker,
            a,
            w,
        };
        let answer = ask.pivot_diameter(&self.pivots[..last], &mut self.scratch);
        self.day.made = answer_line(&mut self.out, self.day.made, answer);
        Some(())
    }

    // What one line holds. None: it can't be taken, and nothing changes.
    pub(crate) fn take_frame(&mut self, frame: Frame) -> Option<()>
        requires spare { Spare 1 self.old.day }
        ensures { FrameTaken frame self.old result self.new }
    {
        match frame {
            Frame::Stops(n) => self.take_stops(n),
            Frame::Row {
                from,
                to,
                start,
                travel,
                owner,
            } => self.take_row(from, to, start, travel, owner),
            Frame::Pivot { stop, reading } => self.take_pivot(stop, reading),
            Frame::Ask { asker, a, w } => self.take_ask(asker, a, w),
        }
    }
}
