// The checks of the table that the calls share.
ghost use Rattle.std.specs.Prelude.{◌≤◌, [], ◌∷◌, length};
ghost use Rattle.rules.specs.Lent.{scratch_places, Wiped};
ghost use Rattle.rules.specs.Table.{check_7, check_10};
ghost use Rattle.day.specs.Verdicts.{Judges};
ghost use Rattle.figures.specs.Parts.{list_checks, plain_checks};
ghost use Rattle.figures.specs.Promises.{asked, room};

use crate::ask::Ask;
use crate::own::Own;
use clock::Reading;
use day::{LAST_CLIENT, MOST_ROWS, ROW_WIDTH, Refusal};

// How many stops there are at most.
const MOST_STOPS: u32 = 256;

// How many places of scratch a call wants.
pub const SCRATCH: usize = 16384;

// Numbers 1, 2 and 3.
pub(crate) fn list_check(list: &[u32], n: u32) -> Result<(), Refusal>
    ensures { Judges (list_checks list.now n) result }
{
    if list.len() % ROW_WIDTH != 0 {
        return Err(Refusal::Width);
    }
    let many = list.len() / ROW_WIDTH > MOST_ROWS;
    if many {
        return Err(Refusal::Rows);
    }
    let no_number = n == 0 || n > MOST_STOPS;
    if no_number {
        return Err(Refusal::Stops);
    }
    Ok(())
}

impl Ask<'_> {
    // Numbers 1 to 5.
    pub(crate) fn plain_check(self) -> Result<(), Refusal>
        ensures { Judges (plain_checks (asked self.entry)) result }
    {
        list_check(self.list, self.n)?;
        if self.asker > LAST_CLIENT {
            return Err(Refusal::Asker);
        }
        if self.a > self.w || Reading::of(self.w).is_none() {
            return Err(Refusal::Interval);
        }
        Ok(())
    }
}

impl Own<'_> {
    // Number 7, for a named stop.
    pub(crate) fn check_stop(self, stop: u32) -> Result<(), Refusal>
        ensures { Judges (check_7 self.entry.n (stop ∷ []) ∷ []) result }
    {
        if stop < self.n {
            Ok(())
        } else {
            Err(Refusal::Named)
        }
    }
}

// Number 10, for one lent list.
pub(crate) fn check_room(lent: &[u32], wants: usize) -> Result<(), Refusal>
    ensures { Judges (check_10 (room lent.now wants ∷ []) ∷ []) result }
{
    if lent.len() < wants {
        Err(Refusal::Room)
    } else {
        Ok(())
    }
}

// An answer leaves scratch at 0.
pub(crate) fn wipe(scratch: &mut [u32])
    requires { scratch_places ≤ length scratch.old }
    ensures { Wiped scratch.old scratch.new }
{
    scratch[..SCRATCH].fill(0);
}
