// Back from a pivot: from when on each stop is too late to reach it in time. Number x + 1 stands for the latest start x, and 0 for none.
ghost use Rattle.std.specs.Prelude.{◌≡◌, ◌++◌, ◌≤◌, ◌<◌, length, drop};
ghost use Rattle.rules.specs.Clock.{horizon};
ghost use Rattle.passes.specs.Legs.{legs_in, Laid};
ghost use Rattle.passes.specs.Reach.{caught, caught_by, reached_back, reach_init};

use crate::begin::begin;
use crate::legs::Leg;
use clock::Length;

// The number by a leg, where `there` is that of the stop it enters.
fn catches(there: u32, start: Length, arrive: Length) -> u32
    requires { start.0 ≤ arrive.0 }
    ensures { result ≡ caught there start.0 arrive.0 }
{
    if arrive.0 < there { start.0 + 1 } else { 0 }
}

// Takes one leg, in front of those taken before.
fn take_back(out: &mut [u32], leg: Leg)
    requires from_in { leg.from < length out.old }
    requires to_in { leg.to < length out.old }
    requires rises { leg.start.0 ≤ leg.arrive.0 }
    ensures { out.new ≡ caught_by out.old leg.from leg.to leg.start.0 leg.arrive.0 }
{
    let from = leg.from as usize;
    let own = catches(out[leg.to as usize], leg.start, leg.arrive);
    out[from] = own.max(out[from]);
}

// For each of the first n stops the latest start of a route that reaches `stop` by `by`.
pub fn reach_back(legs: &[Leg], n: usize, stop: usize, by: u32, out: &mut [u32])
    requires { (n ≤ length out.old) × ((stop < n) × ((by ≤ horizon) × Laid n legs.now)) }
    ensures { out.new ≡ reached_back (legs_in legs.now) (reach_init by stop n) ++ drop n out.old }
{
    begin(out, n, 0, stop, by + 1);
    for leg in legs.iter().rev() {
        take_back(out, *leg);
    }
}
