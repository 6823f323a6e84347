// The bounds of targets, from the legs that enter them.
ghost use Rattle.std.specs.Prelude.{◌≡◌, ◌++◌, ◌≤◌, ◌<◌, length, get_or, set, drop};
ghost use Rattle.rules.specs.Faultless.{Good};
ghost use Rattle.passes.specs.Legs.{legs_in};
ghost use Rattle.search.specs.Bounds.{later_of, bounds_of};

use passes::{Leg, UNREACHED};

// The later of a bound, if there is one, and another arrival.
fn later(bound: u32, arrive: u32) -> u32
    ensures { result ≡ later_of bound arrive }
{
    if bound == UNREACHED {
        arrive
    } else {
        bound.max(arrive)
    }
}

// One leg more.
fn enter(leg: Leg, out: &mut [u32])
    requires { leg.to < length out.old }
    ensures { out.new ≡ set out.old leg.to (later_of (get_or out.old leg.to 0) leg.arrive.0) }
{
    let bound = &mut out[leg.to as usize];
    *bound = later(*bound, leg.arrive.0);
}

// The bounds of n stops: the latest arrival of the legs that enter each, or unreached where none does.
pub fn bounds(legs: &[Leg], n: usize, out: &mut [u32])
    requires { (n ≤ length out.old) × Good n (legs_in legs.now) }
    ensures { out.new ≡ bounds_of n (legs_in legs.now) ++ drop n out.old }
{
    out[..n].fill(UNREACHED);
    for leg in legs {
        enter(*leg, out);
    }
}
