// Targets by falling bound, then rising number, one at a time.
ghost use Rattle.std.specs.Prelude.{◌≡◌, ◌≤◌, length};
ghost use Rattle.rules.specs.Day.{most_stops};
ghost use Rattle.search.specs.Targets.{before_all, afterb, next_in};

use passes::UNREACHED;
use std::cmp::Reverse;

// A stop with its bound. The order of places is that of targets: by falling bound, then rising number.
#[derive(Clone, Copy, PartialEq, Eq, PartialOrd, Ord)]
pub struct Place {
    pub bound: Reverse<u32>,
    pub stop: u32,
}

impl Place {
    // The place before all targets.
    pub fn before_all() -> Place
        ensures { result ≡ before_all }
    {
        Place {
            bound: Reverse(UNREACHED),
            stop: 0,
        }
    }

    // Whether this is a target that comes after `last`. A stop that nothing enters is none.
    #[tactic(auto, unfolding(crate::specs::Targets::afterb))]
    fn comes_after(self, last: Place) -> bool
        ensures { result ≡ afterb last self }
    {
        self.bound.0 != UNREACHED && last < self
    }
}

// The first target after `last`, of n stops with their bounds.
pub fn next_target(bounds: &[u32], n: usize, last: Place) -> Option<Place>
    requires { (n ≤ length bounds.now) × (n ≤ most_stops) }
    ensures { result ≡ next_in bounds.now last n }
{
    let mut next: Option<Place> = None;
    for (stop, &bound) in bounds[..n].iter().enumerate() {
        let place = Place {
            bound: Reverse(bound),
            stop: stop as u32,
        };
        // Numbers rise, so of equal bounds the first stays.
        if next.is_none_or(|found| found.bound.0 < bound) && place.comes_after(last) {
            next = Some(place);
        }
    }
    next
}
