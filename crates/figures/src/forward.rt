// The calls that go forward from a source.
ghost use Rattle.std.specs.Prelude.{◌≡◌, [], ◌∷◌, ◌*◌, ◌≤◌, ◌<◌, length};
ghost use Rattle.rules.specs.Eccentricity.{Forward};
ghost use Rattle.rules.specs.Lent.{Fills};
ghost use Rattle.figures.specs.Own.{owned, own_table, OwnDistance, OwnTable, OwnPairs};
ghost use Rattle.figures.specs.Promises.{asked, room, takes, FulfilsFilling, FulfilsEccentricity, DistancesFromPromise, TablePromise, ForwardEccentricityPromise};

use crate::answers::eccentricity_of;
use crate::ask::{Ask, ROWS_ROOM};
use crate::checks::check_room;
use crate::own::Own;
use clock::Length;
use day::{MOST_ROWS, Refusal};
use passes::{Leg, fill_table, forward_pass};
use search::farthest;

// Over own rows: the checks that are left, then the answer.
impl Own<'_> {
    // The distances from a source, in the first n places of `out`.
    fn go_from(self, source: u32, out: &mut [u32])
        requires { (source < self.n) × (self.n ≤ length out.old) }
        ensures { Fills self.entry.n (OwnDistance (owned self.entry) source) out.old out.new }
    {
        let mut room = [Leg::BLANK; MOST_ROWS];
        let legs = self.legs(&mut room);
        forward_pass(legs, self.n as usize, source as usize, 0, out);
    }

    fn distances_from(self, source: u32, out: &mut [u32]) -> Result<(), Refusal>
        ensures { let own = owned self.entry in FulfilsFilling (own_table own (takes (source ∷ []) [] (room out.old own.n ∷ []))) (Fills own.n (OwnDistance own source) out.old out.new) (out.new ≡ out.old) result }
    {
        self.check_stop(source)?;
        check_room(out, self.n as usize)?;
        self.go_from(source, out);
        Ok(())
    }

    fn table(self, out: &mut [u32]) -> Result<(), Refusal>
        ensures { let own = owned self.entry in FulfilsFilling (own_table own (takes [] [] (room out.old (own.n * own.n) ∷ []))) (Fills (own.n * own.n) (OwnTable own) out.old out.new) (out.new ≡ out.old) result }
    {
        let stops = self.n as usize;
        check_room(out, stops * stops)?;
        let mut room = [Leg::BLANK; MOST_ROWS];
        let legs = self.legs(&mut room);
        fill_table(legs, stops, out);
        Ok(())
    }

    fn forward_eccentricity(self, stop: u32) -> Result<Option<Length>, Refusal>
        ensures { let own = owned self.entry in FulfilsEccentricity (own_table own (takes (stop ∷ []) [] [])) (Forward (OwnPairs own) stop) (Unit {0}) (Unit {0}) result }
    {
        self.check_stop(stop)?;
        let mut out = [0u32; 256];
        self.go_from(stop, &mut out);
        Ok(eccentricity_of(farthest(&out, self.n as usize, stop)))
    }
}

impl Ask<'_> {
    // The distances from a source, in the first n places of `out`.
    pub fn distances_from(self, source: u32, out: &mut [u32]) -> Result<(), Refusal>
        ensures { DistancesFromPromise (asked self.entry) source out.old result out.new }
    {
        let mut rows = [0u32; ROWS_ROOM];
        self.own(&mut rows)?.distances_from(source, out)
    }

    // The whole table, in the first n × n places of `out`.
    pub fn table(self, out: &mut [u32]) -> Result<(), Refusal>
        ensures { TablePromise (asked self.entry) out.old result out.new }
    {
        let mut rows = [0u32; ROWS_ROOM];
        self.own(&mut rows)?.table(out)
    }

    // The greatest distance from a stop to a different stop that is reached.
    pub fn forward_eccentricity(self, stop: u32) -> Result<Option<Length>, Refusal>
        ensures { ForwardEccentricityPromise (asked self.entry) stop result }
    {
        let mut rows = [0u32; ROWS_ROOM];
        self.own(&mut rows)?.forward_eccentricity(stop)
    }
}
