// The forward pass: one scan of the legs in list order.
ghost use Rattle.std.specs.Prelude.{◌≡◌, ◌++◌, ◌≤◌, ◌<◌, length, drop};
ghost use Rattle.passes.specs.Legs.{legs_in, Laid};
ghost use Rattle.passes.specs.Forward.{arrival_of, relaxed, passed, init};

use crate::begin::begin;
use crate::legs::Leg;
use clock::Length;

// In a list of numbers, a stop that is not reached.
pub const UNREACHED: u32 = 4294967295;

// The arrival that a number of the result list stands for, as a length since A, or none where the stop is not reached.
fn arrival_of(x: u32) -> Option<Length>
    ensures { result ≡ arrival_of x }
{
    (x != UNREACHED).then_some(Length(x))
}

// Takes one leg, if the rider is there in time and it arrives earlier than known.
fn relax(out: &mut [u32], leg: Leg)
    requires from_in { leg.from < length out.old }
    requires to_in { leg.to < length out.old }
    ensures { out.new ≡ relaxed out.old leg.from leg.to leg.start.0 leg.arrive.0 }
{
    let to = leg.to as usize;
    let Some(here) = arrival_of(out[leg.from as usize]) else {
        return;
    };
    if here <= leg.start {
        out[to] = leg.arrive.0.min(out[to]);
    }
}

// The arrivals from a source left at `since`, in the first n places.
pub fn forward_pass(legs: &[Leg], n: usize, source: usize, since: u32, out: &mut [u32])
    requires { (n ≤ length out.old) × ((source < n) × Laid n legs.now) }
    ensures { out.new ≡ passed (legs_in legs.now) (init since source n) ++ drop n out.old }
{
    begin(out, n, UNREACHED, source, since);
    for leg in legs {
        relax(out, *leg);
    }
}
