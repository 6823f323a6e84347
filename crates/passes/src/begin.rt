// What a scan begins with.
ghost use Rattle.std.specs.Prelude.{◌≡◌, ◌++◌, ◌≤◌, ◌<◌, length, set, drop, replicate};

// The first n places become x, but for one that becomes y; the rest is kept.
pub(crate) fn begin(out: &mut [u32], n: usize, x: u32, place: usize, y: u32)
    requires room { n ≤ length out.old }
    requires place_in { place < n }
    ensures { out.new ≡ set (replicate n x) place y ++ drop n out.old }
{
    out[..n].fill(x);
    out[place] = y;
}
