// The farthest source of a target.
ghost use Rattle.std.specs.Prelude.{◌≡◌, ◌≤◌, length};
ghost use Rattle.rules.specs.Day.{most_stops};
ghost use Rattle.search.specs.Farthest.{farther, farthest_in};

use passes::UNREACHED;

// The greatest distance to a target, 0 for none, and the lowest source at that distance.
#[derive(Clone, Copy, Default)]
pub struct Far {
    pub value: u32,
    pub source: u32,
}

impl Far {
    // One source more. A stop's distance to itself does not count.
    fn with(self, source: u32, distance: u32, target: u32) -> Far
        ensures { result ≡ farther target source distance self }
    {
        if source != target && distance != UNREACHED && distance > self.value {
            Far {
                value: distance,
                source,
            }
        } else {
            self
        }
    }
}

// The farthest of n sources; place u of the list is the distance from u to the target.
#[tactic(auto, unfolding(crate::specs::Farthest::farthest_in))]
pub fn farthest(distances: &[u32], n: usize, target: u32) -> Far
    requires { (n ≤ length distances.now) × (n ≤ most_stops) }
    ensures { result ≡ farthest_in distances.now target n }
{
    (0..n as u32)
        .zip(distances)
        .fold(Far::default(), |far, (source, &distance)| {
            far.with(source, distance, target)
        })
}
