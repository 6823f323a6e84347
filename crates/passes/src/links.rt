// Links between legs, for scans from the last leg to the first. Number k stands for leg k - 1, and 0 for none.
ghost use Rattle.std.specs.Prelude.{◌≡◌, ◌-◌, ◌≤◌, length};
ghost use Rattle.rules.specs.Day.{most_rows};
ghost use Rattle.passes.specs.Links.{Orderly, AllLinked, no_links, onward, Chained, Farther, Twice, AllMost};

use crate::legs::{Leg, leg_no};
use crate::linked::LinkedLegs;
use clock::Length;

// Each stop's first leg, and for each leg the next one of its from-stop and the first that may follow it.
#[derive(Drop)]
pub struct Links {
    pub head: [u32; 256],
    pub next: [u32; 2049],
    pub follow: [u32; 2049],
}

// For each leg where it jumps to, and how many legs of its chain there are from it on.
#[derive(Drop)]
struct Jumps {
    to: [u32; 2049],
    depth: [u32; 2049],
}

// Where a search for a start at t or later goes next: a jump may only land on a leg that starts too early.
#[tactic(auto, using(crate::specs::Links::to_near, crate::specs::Links::to_far))]
fn farther(legs: &[Leg], near: u32, far: u32, t: Length) -> u32
    requires { far ≤ length legs.now }
    ensures { Farther legs.now near far t.0 result }
{
    if far == 0 {
        return near;
    }
    if leg_no(legs, far as usize).start < t {
        far
    } else {
        near
    }
}

// The first leg of a chain, from its leg k on, that starts at t or later.
fn first_from(legs: &[Leg], next: &[u32; 2049], jump: &[u32; 2049], k: u32, t: Length) -> u32
    requires orderly { Orderly legs.now }
    requires k_bound { k ≤ length legs.now }
    requires chained { 1 ≤ k → Chained legs.now (k - 1) next.now jump.now }
    ensures { result ≡ onward legs.now k t.0 }
{
    let mut j = k;
    while j > 0 {
        let in_time = t <= leg_no(legs, j as usize).start;
        if in_time {
            return j;
        }
        j = farther(legs, next[j as usize], jump[j as usize], t);
    }
    0
}

impl Jumps {
    // Where a leg before leg p of a chain jumps to: past the two jumps that follow where these are as long as each other.
    #[tactic(auto, using(crate::specs::Links::to_next, crate::specs::Links::to_second))]
    fn jump_of(&self, p: u32) -> u32
        requires p_most { p ≤ most_rows }
        requires to_most { AllMost most_rows self.now.to }
        requires depth_most { AllMost most_rows self.now.depth }
        ensures { Twice self.now.to p result }
    {
        if p == 0 {
            return 0;
        }
        let q = self.to[p as usize];
        if q == 0 {
            return p;
        }
        let r = self.to[q as usize];
        let middle = self.depth[q as usize];
        if self.depth[p as usize] + self.depth[r as usize] == middle + middle {
            return r;
        }
        p
    }
}

impl Links {
    ghost use Rattle.std.specs.Prelude.{⊤};
    ghost use Rattle.std.specs.Borrow.{sem, follows_so};
    ghost use mathlib.Core.Option.{none};
    ghost use Rattle.passes.specs.contracts.links.Links.{the_row};

    // No leg is linked.
    pub fn new() -> Links
        ensures { result ≡ no_links }
    {
        Links {
            head: [0; 256],
            next: [0; 2049],
            follow: [0; 2049],
        }
    }

    // Fills in the links of all legs; a place that belongs to no leg is kept.
    fn link(&mut self, legs: &[Leg])
        requires { Orderly legs.now }
        ensures { AllLinked legs.now self.old self.new }
    {
        self.head = [0; 256];
        let mut jumps = Jumps {
            to: [0; 2049],
            depth: [0; 2049],
        };
        for k in (1..=legs.len()).rev() {
            let leg = leg_no(legs, k);
            let from = leg.from as usize;
            let to = leg.to as usize;
            self.follow[k] = first_from(legs, &self.next, &jumps.to, self.head[to], leg.arrive);
            let after = self.head[from];
            self.next[k] = after;
            jumps.to[k] = jumps.jump_of(after);
            jumps.depth[k] = jumps.depth[after as usize] + 1;
            self.head[from] = k as u32;
        }
    }

    // The legs with their links filled in; a place that belongs to no leg is kept.
    pub fn fill<'a>(&'a mut self, legs: &'a [Leg]) -> LinkedLegs<'a>
        requires { Orderly legs.now }
        ensures* lent { sem 𝓛 (follows_so the_row the_row self.entry.ghost_name none (λ _ _. ⊤) (λ links. AllLinked legs.now self.old links)) }
        ensures legs { result.legs.now ≡ legs.now }
        ensures links { AllLinked legs.now self.old result.links.now }
    {
        self.link(legs);
        LinkedLegs { legs, links: self }
    }
}
