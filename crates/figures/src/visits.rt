// The search for the farthest pair: targets taken one at a time, a backward sweep for each.
ghost use Rattle.std.specs.Prelude.{◌≡◌, ℕ, ◌≤◌, ◌<◌, length};
ghost use Rattle.rules.specs.Day.{most_stops};
ghost use Rattle.passes.specs.Legs.{legs_in};
ghost use Rattle.search.specs.declared.far.Far.{Far};
ghost use Rattle.search.specs.Visits.{begun, searched};
ghost use Rattle.search.specs.Targets.{before_all};
ghost use Rattle.figures.specs.Answered.{far_in, far_kept};
ghost use Rattle.figures.specs.Visiting.{Follows};

use passes::LinkedLegs;
use search::{Far, PivotNumbers, Place, Search, farthest, keep_joined, next_target};

// The farthest source of a target.
pub(crate) fn far_to(linked: &LinkedLegs, target: u32, n: usize) -> Far
    requires { n ≤ most_stops }
    ensures { result ≡ far_in (legs_in linked.now.legs.now) n target }
{
    let mut out = [0u32; 256];
    linked.to_target(target, n, &mut out);
    farthest(&out[..n], n, target)
}

// The farthest source of a target among those that some pivot joins to it.
pub(crate) fn far_joined(linked: &LinkedLegs, pivots: &[PivotNumbers], target: u32, n: usize) -> Far
    requires { (n ≤ most_stops) × (target < n) }
    ensures { result ≡ far_kept (legs_in linked.now.legs.now) pivots.now n target }
{
    let mut out = [0u32; 256];
    linked.to_target(target, n, &mut out);
    keep_joined(pivots, n, target, &mut out);
    farthest(&out[..n], n, target)
}

// The search over n stops with their bounds, where `far` tells the farthest source of a target.
pub(crate) fn visit_all<F: Fn(u32) -> Far>(bounds: &[u32], n: usize, far: F) -> Search
    requires n_bounded { (n ≤ length bounds.now) × (n ≤ most_stops) }
    requires callable { (v : ℕ) → v < n → F.pre far v }
    ensures { (f : ℕ → Far) → Follows n (F.post far) f → result ≡ searched f bounds.now n n before_all begun }
{
    let mut st = Search::begun();
    let mut last = Place::before_all();
    for _ in 0..n {
        let Some(place) = next_target(bounds, n, last) else {
            return st;
        };
        if st.stops_at(place) {
            return st;
        }
        st = st.visit(place.stop, far(place.stop));
        last = place;
    }
    st
}
