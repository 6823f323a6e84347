// The pivot-diameter.
ghost use Rattle.std.specs.Prelude.{◌≡◌, [], ◌∷◌, ◌/◌, ◌≤◌, length};
ghost use Rattle.rules.specs.Lent.{scratch_places, Wiped};
ghost use Rattle.rules.specs.Pivots.{most_pivots};
ghost use Rattle.rules.specs.Table.{table};
ghost use Rattle.rules.specs.Figures.{JoinedPairs, PivotBounds};
ghost use Rattle.search.specs.Found.{Right};
ghost use Rattle.figures.specs.Own.{owned, own_table, OwnJoined, OwnUnder};
ghost use Rattle.figures.specs.Pivots.{pivot_width, AllSit};
ghost use Rattle.figures.specs.Promises.{asked, room, takes, Fulfils, PivotDiameterPromise};

use crate::answers::Answer;
use crate::ask::{Ask, ROWS_ROOM};
use crate::checks::{SCRATCH, check_room, wipe};
use crate::own::Own;
use crate::pivots::MOST_PIVOTS;
use crate::visits::{far_joined, visit_all};
use day::{MOST_ROWS, Refusal};
use passes::{Leg, Links};
use search::{PivotNumbers, Search, pivot_bounds};

// Over own rows: the checks that are left, then the answer.
impl Own<'_> {
    // The search over all targets, among the pairs that some pivot joins.
    fn search_joined(self, pivots: &[u32]) -> Search
        requires { (length pivots.now / pivot_width ≤ most_pivots) × AllSit self.n self.a.0 self.w.0 pivots.now }
        ensures { let own = owned self.entry in Right (OwnJoined own pivots.now) (OwnUnder own pivots.now) result }
    {
        let stops = self.n as usize;
        let mut room = [Leg::BLANK; MOST_ROWS];
        let mut links = Links::new();
        let linked = self.linked(&mut room, &mut links);
        let mut numbers = [PivotNumbers::BLANK; MOST_PIVOTS];
        let numbers = self.pivot_numbers(linked.legs, pivots, &mut numbers);
        let mut entered = [0u32; 256];
        pivot_bounds(numbers, stops, &mut entered);
        visit_all(&entered, stops, |v| far_joined(&linked, numbers, v, stops))
    }

    fn pivot_diameter(self, pivots: &[u32], scratch: &mut [u32]) -> Result<Search, Refusal>
        ensures { let own = owned self.entry in Fulfils (own_table own (takes [] pivots.now (room scratch.old scratch_places ∷ []))) (λ st. Right (OwnJoined own pivots.now) (OwnUnder own pivots.now) st × Wiped scratch.old scratch.new) (scratch.new ≡ scratch.old) result }
    {
        self.check_pivots(pivots)?;
        check_room(scratch, SCRATCH)?;
        let st = self.search_joined(pivots);
        wipe(scratch);
        Ok(st)
    }
}

impl Ask<'_> {
    fn pivot_diameter_end(self, pivots: &[u32], scratch: &mut [u32]) -> Result<Search, Refusal>
        ensures { let ask = asked self.entry in Fulfils (table ask (takes [] pivots.now (room scratch.old scratch_places ∷ []))) (λ st. Right (JoinedPairs ask pivots.now) (PivotBounds ask pivots.now) st × Wiped scratch.old scratch.new) (scratch.new ≡ scratch.old) result }
    {
        let mut rows = [0u32; ROWS_ROOM];
        self.own(&mut rows)?.pivot_diameter(pivots, scratch)
    }

    // The greatest distance over pairs joined by at least one pivot. A pivot is two numbers, a stop and a reading.
    pub fn pivot_diameter(self, pivots: &[u32], scratch: &mut [u32]) -> Answer
        ensures { PivotDiameterPromise (asked self.entry) pivots.now scratch.old result scratch.new }
    {
        Answer::from(self.pivot_diameter_end(pivots, scratch))
    }
}
