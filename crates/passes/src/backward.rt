// Backward to a target: one sweep from the last leg to the first.
ghost use Rattle.std.specs.Prelude.{◌≡◌, cond, ◌++◌, ◌≤◌, eqb, length, drop};
ghost use Rattle.rules.specs.Day.{most_stops};
ghost use Rattle.passes.specs.Legs.{legs_in};
ghost use Rattle.passes.specs.Backward.{Sweeps, distances_to};

use crate::forward::UNREACHED;
use crate::legs::leg_no;
use crate::linked::LinkedLegs;

// The earliest arrival at the target from a stop: `there` where the stop is the target, else x.
fn arrival_from(stop: u32, target: u32, there: u32, x: u32) -> u32
    ensures { result ≡ cond (eqb stop target) there x }
{
    if stop == target { there } else { x }
}

impl LinkedLegs<'_> {
    // For each leg the earliest arrival at the target by it or a later leg of its from-stop; a place past the legs is kept.
    fn sweep(&self, target: u32, best: &mut [u32; 2049])
        ensures { Sweeps self.now.legs.now target best.old best.new }
    {
        best[0] = UNREACHED;
        for k in (1..=self.legs.len()).rev() {
            let leg = leg_no(self.legs, k);
            let later = best[self.links.follow[k] as usize];
            let own = arrival_from(leg.to, target, leg.arrive.0, later);
            let beside = best[self.links.next[k] as usize];
            best[k] = own.min(beside);
        }
    }

    // The distances to the target from the first n stops.
    pub fn to_target(&self, target: u32, n: usize, out: &mut [u32])
        requires n_le_most_stops { n ≤ most_stops }
        requires n_in_bounds { n ≤ length out.old }
        ensures { out.new ≡ distances_to target (legs_in self.now.legs.now) n 0 ++ drop n out.old }
    {
        let mut best = [0u32; 2049];
        self.sweep(target, &mut best);
        for (u, distance) in out[..n].iter_mut().enumerate() {
            let x = best[self.links.head[u] as usize];
            *distance = arrival_from(u as u32, target, 0, x);
        }
    }
}
