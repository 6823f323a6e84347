// The checks of pivots, that come as numbers, two to a pivot.
ghost use Rattle.std.specs.Prelude.{◌≡◌, [], ◌∷◌, ◌/◌, ◌≤◌, ◌<◌, length};
ghost use Rattle.rules.specs.Pivots.{most_pivots, pivots_of};
ghost use Rattle.rules.specs.Table.{check_8, check_9};
ghost use Rattle.day.specs.Verdicts.{Judges};
ghost use Rattle.figures.specs.Pivots.{pivot_width, pivot_of, pivot_at, astrayb};

use crate::own::Own;
use clock::Reading;
use day::Refusal;

// How many numbers a pivot takes.
pub const PIVOT_WIDTH: usize = 2;

// How many pivots there are at most.
pub const MOST_PIVOTS: usize = 16;

// A stop, and a reading at which the rider is there.
#[derive(Clone, Copy)]
pub(crate) struct Pivot {
    pub(crate) stop: u32,
    pub(crate) reading: Reading,
}

// Pivot i of the list.
pub(crate) fn pivot_at(pivots: &[u32], i: usize) -> Pivot
    requires { i < length pivots.now / pivot_width }
    ensures { pivot_of result ≡ pivot_at pivots.now i }
{
    let at = i * PIVOT_WIDTH;
    Pivot {
        stop: pivots[at],
        reading: Reading(pivots[at + 1]),
    }
}

impl Own<'_> {
    // Whether a pivot's stop is not below n, or its reading lies outside a to w.
    fn is_astray(self, pivot: Pivot) -> bool
        ensures { result ≡ astrayb self.entry.n self.entry.a.0 self.entry.w.0 (pivot_of pivot) }
    {
        pivot.stop >= self.n || pivot.reading < self.a || pivot.reading > self.w
    }

    // Number 9, with the first bad pivot's number.
    fn first_astray(self, pivots: &[u32]) -> Result<(), Refusal>
        requires { length pivots.now / pivot_width ≤ most_pivots }
        ensures { Judges (check_9 self.entry.n self.entry.a.0 self.entry.w.0 (pivots_of pivots.now) ∷ []) result }
    {
        for i in 0..pivots.len() / PIVOT_WIDTH {
            if self.is_astray(pivot_at(pivots, i)) {
                return Err(Refusal::Pivot { place: i as u32 });
            }
        }
        Ok(())
    }

    // Numbers 8 and 9.
    pub(crate) fn check_pivots(self, pivots: &[u32]) -> Result<(), Refusal>
        ensures { Judges (check_8 pivots.now ∷ check_9 self.entry.n self.entry.a.0 self.entry.w.0 (pivots_of pivots.now) ∷ []) result }
    {
        if pivots.len() % PIVOT_WIDTH != 0 || pivots.len() / PIVOT_WIDTH > MOST_PIVOTS {
            return Err(Refusal::Pivots);
        }
        self.first_astray(pivots)
    }
}
