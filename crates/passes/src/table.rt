// The whole table: each source's pass writes into its own stretch.
ghost use Rattle.std.specs.Prelude.{◌≡◌, ◌++◌, ◌*◌, ◌≤◌, length, drop};
ghost use Rattle.passes.specs.Legs.{legs_in, Laid};
ghost use Rattle.passes.specs.Forward.{stretches, stretch_of};

use crate::forward::forward_pass;
use crate::legs::Leg;

// The distances from every source u, from place u × n on.
pub fn fill_table(legs: &[Leg], n: usize, out: &mut [u32])
    requires { (n * n ≤ length out.old) × Laid n legs.now }
    ensures { out.new ≡ stretches (stretch_of n (legs_in legs.now)) n ++ drop (n * n) out.old }
{
    for u in 0..n {
        let at = u * n;
        forward_pass(legs, n, u, 0, &mut out[at..]);
    }
}
