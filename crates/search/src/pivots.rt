// Pivots: the bounds of targets under them, and the sources that they join to a target.
ghost use Rattle.std.specs.Prelude.{◌≡◌, ◌++◌, ◌≤◌, ◌<◌, length, drop};
ghost use Rattle.rules.specs.Day.{most_stops};
ghost use Rattle.search.specs.Pivots.{bound_under, bounds_under, joinsb, joinedb, kept_joined};

use passes::UNREACHED;

// A pivot's number for each stop: the arrival onward from it, unreached where there is none, and one that is not 0 where the stop
// reaches it in time.
#[derive(Clone, Copy)]
pub struct PivotNumbers {
    pub onward: [u32; 256],
    pub into: [u32; 256],
}

impl PivotNumbers {
    // What a room for a pivot's numbers holds before they are laid out.
    pub const BLANK: PivotNumbers = PivotNumbers {
        onward: [0; 256],
        into: [0; 256],
    };
}

// The greatest bound of stop v over the pivots that reach it, or unreached.
#[tactic(auto, unfolding(crate::specs::Pivots::bound_under))]
fn bound_under(pivots: &[PivotNumbers], v: usize) -> u32
    requires { v < most_stops }
    ensures { result ≡ bound_under pivots.now v }
{
    pivots
        .iter()
        .map(|pivot| pivot.onward[v])
        .filter(|&number| number != UNREACHED)
        .max()
        .unwrap_or(UNREACHED)
}

// The bounds of n stops under the pivots, unreached where no pivot reaches the stop.
#[tactic(auto, using(crate::proofs::Keeping::fill_none, crate::proofs::Keeping::fill_one))]
pub fn pivot_bounds(pivots: &[PivotNumbers], n: usize, out: &mut [u32])
    requires n_le_most_stops { n ≤ most_stops }
    requires n_in_bounds { n ≤ length out.old }
    ensures { out.new ≡ bounds_under pivots.now n ++ drop n out.old }
{
    for (v, bound) in out[..n].iter_mut().enumerate() {
        *bound = bound_under(pivots, v);
    }
}

// Whether a pivot joins a source to a target, by its number for the target and the source's number for it.
fn joins(onward: u32, into: u32) -> bool
    ensures { result ≡ joinsb onward into }
{
    onward != UNREACHED && into != 0
}

// Whether some pivot joins source u to the target v.
#[tactic(auto, unfolding(crate::specs::Pivots::joinedb))]
fn is_joined(pivots: &[PivotNumbers], u: usize, v: usize) -> bool
    requires { (u < most_stops) × (v < most_stops) }
    ensures { result ≡ joinedb pivots.now v u }
{
    pivots
        .iter()
        .any(|pivot| joins(pivot.onward[v], pivot.into[u]))
}

// Keeps the distances to the target from those of n sources that some pivot joins to it. The target's own place goes by the same test.
#[tactic(auto, using(crate::proofs::Keeping::fill_none, crate::proofs::Keeping::fill_one, crate::proofs::Keeping::fill_kept, crate::proofs::Keeping::fill_reads))]
pub fn keep_joined(pivots: &[PivotNumbers], n: usize, target: u32, out: &mut [u32])
    requires n_le_most_stops { (n ≤ most_stops) × (target < n) }
    requires n_in_bounds { n ≤ length out.old }
    ensures { out.new ≡ kept_joined pivots.now n target out.old ++ drop n out.old }
{
    for (u, distance) in out[..n].iter_mut().enumerate() {
        if !is_joined(pivots, u, target as usize) {
            *distance = UNREACHED;
        }
    }
}
