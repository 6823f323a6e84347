// What an ask lays out: the legs of own rows, and the numbers of pivots, onward from each and into it.
ghost use Rattle.std.specs.Prelude.{◌≡◌, ◌/◌, ◌≤◌, ◌<◌, length};
ghost use Rattle.rules.specs.Clock.{horizon};
ghost use Rattle.rules.specs.Day.{most_stops, most_rows, rows_of};
ghost use Rattle.rules.specs.Pivots.{pivots_of};
ghost use Rattle.passes.specs.Legs.{legs_in, Laid};
ghost use Rattle.passes.specs.Pivots.{onward_pivot, into_pivot};
ghost use Rattle.search.specs.Pivots.{numbers_over, PivotsLaid, LaidOut};
ghost use Rattle.figures.specs.Parts.{LegsLaid, LegsLinked};
ghost use Rattle.figures.specs.Pivots.{pivot_width, pivot_of, AllSit};

use crate::own::Own;
use crate::pivots::{PIVOT_WIDTH, Pivot, pivot_at};
use clock::Reading;
use passes::{Leg, LinkedLegs, Links, forward_pass, make_legs, reach_back};
use search::PivotNumbers;

// One pivot's numbers.
fn lay_pivot(legs: &[Leg], n: usize, a: Reading, pivot: Pivot, numbers: &mut PivotNumbers)
    requires n_bounded { (n ≤ most_stops) × Laid n legs.now }
    requires sits { (pivot.stop < n) × ((a.0 ≤ pivot.reading.0) × (pivot.reading.0 ≤ horizon)) }
    ensures { numbers.new ≡ numbers_over n (onward_pivot n a.0 (legs_in legs.now) (pivot_of pivot)) (into_pivot n a.0 (legs_in legs.now) (pivot_of pivot)) numbers.old }
{
    let stop = pivot.stop as usize;
    let since = pivot.reading.minus(a).unwrap();
    forward_pass(legs, n, stop, since.0, &mut numbers.onward);
    reach_back(legs, n, stop, since.0, &mut numbers.into);
}

impl Own<'_> {
    // The legs of own rows, in the front of `room`.
    pub(crate) fn legs<'r>(self, room: &'r mut [Leg]) -> &'r [Leg]
        requires { most_rows ≤ length room.old }
        ensures { LegsLaid self.entry.n self.entry.a.0 self.entry.w.0 (rows_of self.entry.rows.now) result.now }
    {
        let m = make_legs(self.rows, self.a, self.w, room);
        &room[..m]
    }

    // Lays the legs of own rows in the front of `room` and links them, and answers their number; a place that belongs to no
    // leg is kept.
    fn lay_legs(self, room: &mut [Leg], links: &mut Links) -> usize
        requires { most_rows ≤ length room.old }
        ensures { LegsLinked self.entry.a.0 self.entry.w.0 (rows_of self.entry.rows.now) room.old links.old result room.new links.new }
    {
        let count = make_legs(self.rows, self.a, self.w, room);
        links.fill(&room[..count]);
        count
    }

    // The legs of own rows with their links.
    pub(crate) fn linked<'r>(self, room: &'r mut [Leg], links: &'r mut Links) -> LinkedLegs<'r>
        requires { most_rows ≤ length room.old }
        ensures { LegsLaid self.entry.n self.entry.a.0 self.entry.w.0 (rows_of self.entry.rows.now) result.legs.now }
    {
        let count = self.lay_legs(room, links);
        LinkedLegs {
            legs: &room[..count],
            links,
        }
    }

    // The numbers of all pivots, in the front of `list`.
    fn lay_pivots(self, legs: &[Leg], pivots: &[u32], list: &mut [PivotNumbers])
        requires laid { Laid self.n legs.now }
        requires sit { AllSit self.n self.a.0 self.w.0 pivots.now }
        requires room { length pivots.now / pivot_width ≤ length list.old }
        ensures { PivotsLaid self.entry.n (pivots_of pivots.now) (onward_pivot self.entry.n self.entry.a.0 (legs_in legs.now)) (into_pivot self.entry.n self.entry.a.0 (legs_in legs.now)) list.old list.new }
    {
        for i in 0..pivots.len() / PIVOT_WIDTH {
            lay_pivot(
                legs,
                self.n as usize,
                self.a,
                pivot_at(pivots, i),
                &mut list[i],
            );
        }
    }

    // The same, as a search reads them.
    pub(crate) fn pivot_numbers<'r>(
        self,
        legs: &[Leg],
        pivots: &[u32],
        room: &'r mut [PivotNumbers],
    ) -> &'r [PivotNumbers]
        requires laid { Laid self.n legs.now }
        requires sit { AllSit self.n self.a.0 self.w.0 pivots.now }
        requires room { length pivots.now / pivot_width ≤ length room.old }
        ensures { LaidOut self.entry.n (pivots_of pivots.now) (onward_pivot self.entry.n self.entry.a.0 (legs_in legs.now)) (into_pivot self.entry.n self.entry.a.0 (legs_in legs.now)) result.now }
    {
        let list = &mut room[..pivots.len() / PIVOT_WIDTH];
        self.lay_pivots(legs, pivots, list);
        list
    }
}
