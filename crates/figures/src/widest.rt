// The diameter.
ghost use Rattle.std.specs.Prelude.{◌≡◌, [], ◌∷◌};
ghost use Rattle.rules.specs.Lent.{scratch_places, Wiped};
ghost use Rattle.search.specs.Found.{Right};
ghost use Rattle.rules.specs.Table.{table};
ghost use Rattle.rules.specs.Figures.{Pairs, Bounds};
ghost use Rattle.figures.specs.Own.{owned, own_table, OwnPairs, OwnBounds};
ghost use Rattle.figures.specs.Promises.{asked, room, takes, Fulfils, DiameterPromise};

use crate::answers::Answer;
use crate::ask::{Ask, ROWS_ROOM};
use crate::checks::{SCRATCH, check_room, wipe};
use crate::own::Own;
use crate::visits::{far_to, visit_all};
use day::{MOST_ROWS, Refusal};
use passes::{Leg, Links};
use search::{Search, bounds};

// Over own rows: the checks that are left, then the answer.
impl Own<'_> {
    // The search over all targets.
    fn search_all(self) -> Search
        ensures { let own = owned self.entry in Right (OwnPairs own) (OwnBounds own) result }
    {
        let stops = self.n as usize;
        let mut room = [Leg::BLANK; MOST_ROWS];
        let mut links = Links::new();
        let linked = self.linked(&mut room, &mut links);
        let mut entered = [0u32; 256];
        bounds(linked.legs, stops, &mut entered);
        visit_all(&entered, stops, |v| far_to(&linked, v, stops))
    }

    fn diameter(self, scratch: &mut [u32]) -> Result<Search, Refusal>
        ensures { let own = owned self.entry in Fulfils (own_table own (takes [] [] (room scratch.old scratch_places ∷ []))) (λ st. Right (OwnPairs own) (OwnBounds own) st × Wiped scratch.old scratch.new) (scratch.new ≡ scratch.old) result }
    {
        check_room(scratch, SCRATCH)?;
        let st = self.search_all();
        wipe(scratch);
        Ok(st)
    }
}

impl Ask<'_> {
    fn diameter_end(self, scratch: &mut [u32]) -> Result<Search, Refusal>
        ensures { let ask = asked self.entry in Fulfils (table ask (takes [] [] (room scratch.old scratch_places ∷ []))) (λ st. Right (Pairs ask) (Bounds ask) st × Wiped scratch.old scratch.new) (scratch.new ≡ scratch.old) result }
    {
        let mut rows = [0u32; ROWS_ROOM];
        self.own(&mut rows)?.diameter(scratch)
    }

    // The greatest distance over reached pairs of different stops.
    pub fn diameter(self, scratch: &mut [u32]) -> Answer
        ensures { DiameterPromise (asked self.entry) scratch.old result scratch.new }
    {
        Answer::from(self.diameter_end(scratch))
    }
}
