// The calls that go backward to a target.
ghost use Rattle.std.specs.Prelude.{◌≡◌, [], ◌∷◌};
ghost use Rattle.rules.specs.Eccentricity.{Backward};
ghost use Rattle.rules.specs.Lent.{Fills, scratch_places, Wiped};
ghost use Rattle.figures.specs.Own.{owned, own_table, OwnDistance, OwnPairs};
ghost use Rattle.figures.specs.Promises.{asked, room, takes, FulfilsFilling, FulfilsEccentricity, DistancesToPromise, BackwardEccentricityPromise};

use crate::answers::eccentricity_of;
use crate::ask::{Ask, ROWS_ROOM};
use crate::checks::{SCRATCH, check_room, wipe};
use crate::own::Own;
use crate::visits::far_to;
use clock::Length;
use day::{MOST_ROWS, Refusal};
use passes::{Leg, Links};

// Over own rows: the checks that are left, then the answer.
impl Own<'_> {
    fn distances_to(self, target: u32, out: &mut [u32], scratch: &mut [u32]) -> Result<(), Refusal>
        ensures { let own = owned self.entry in FulfilsFilling (own_table own (takes (target ∷ []) [] (room out.old own.n ∷ room scratch.old scratch_places ∷ []))) (Fills own.n (λ u. OwnDistance own u target) out.old out.new × Wiped scratch.old scratch.new) ((out.new ≡ out.old) × (scratch.new ≡ scratch.old)) result }
    {
        let stops = self.n as usize;
        self.check_stop(target)?;
        check_room(out, stops)?;
        check_room(scratch, SCRATCH)?;
        let mut room = [Leg::BLANK; MOST_ROWS];
        let mut links = Links::new();
        let linked = self.linked(&mut room, &mut links);
        linked.to_target(target, stops, out);
        wipe(scratch);
        Ok(())
    }

    fn backward_eccentricity(
        self,
        stop: u32,
        scratch: &mut [u32],
    ) -> Result<Option<Length>, Refusal>
        ensures { let own = owned self.entry in FulfilsEccentricity (own_table own (takes (stop ∷ []) [] (room scratch.old scratch_places ∷ []))) (Backward (OwnPairs own) stop) (Wiped scratch.old scratch.new) (scratch.new ≡ scratch.old) result }
    {
        self.check_stop(stop)?;
        check_room(scratch, SCRATCH)?;
        let mut room = [Leg::BLANK; MOST_ROWS];
        let mut links = Links::new();
        let linked = self.linked(&mut room, &mut links);
        let far = far_to(&linked, stop, self.n as usize);
        wipe(scratch);
        Ok(eccentricity_of(far))
    }
}

impl Ask<'_> {
    // The distances to a target, in the first n places of `out`.
    pub fn distances_to(
        self,
        target: u32,
        out: &mut [u32],
        scratch: &mut [u32],
    ) -> Result<(), Refusal>
        ensures { DistancesToPromise (asked self.entry) target out.old scratch.old result out.new scratch.new }
    {
        let mut rows = [0u32; ROWS_ROOM];
        self.own(&mut rows)?.distances_to(target, out, scratch)
    }

    // The greatest distance to a stop from a different stop that reaches it.
    pub fn backward_eccentricity(
        self,
        stop: u32,
        scratch: &mut [u32],
    ) -> Result<Option<Length>, Refusal>
        ensures { BackwardEccentricityPromise (asked self.entry) stop scratch.old result scratch.new }
    {
        let mut rows = [0u32; ROWS_ROOM];
        self.own(&mut rows)?.backward_eccentricity(stop, scratch)
    }
}
