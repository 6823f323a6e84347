// The state of a search, by value from visit to visit.
ghost use Rattle.std.specs.Prelude.{◌≡◌, ◌<◌};
ghost use Rattle.rules.specs.Day.{most_stops};
ghost use Rattle.search.specs.Visits.{begun, visited, stops_at};

use crate::far::Far;
use crate::targets::Place;

// The best value, at first 0, the pair that has it, and the number of visits.
#[derive(Clone, Copy, Default)]
pub struct Search {
    pub best: u32,
    pub source: u32,
    pub target: u32,
    pub visits: u32,
}

impl Search {
    // The state before all visits.
    pub fn begun() -> Search
        ensures { result ≡ begun }
    {
        Search::default()
    }

    // Whether the search stops at a target: its bound is not greater than the best value.
    pub fn stops_at(self, place: Place) -> bool
        ensures { result ≡ stops_at place.bound.0 self.best }
    {
        place.bound.0 <= self.best
    }

    // The state after a visit of the target. A value that is only as good leaves the pair.
    #[tactic(auto, unfolding(crate::specs::Visits::visited))]
    pub fn visit(self, target: u32, far: Far) -> Search
        requires { self.visits < most_stops }
        ensures { result ≡ visited target far self }
    {
        let visits = self.visits + 1;
        if far.value > self.best {
            Search {
                best: far.value,
                source: far.source,
                target,
                visits,
            }
        } else {
            Search { visits, ..self }
        }
    }
}
