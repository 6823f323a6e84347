// Legs: own rows that lie in the interval, with their times as lengths since A.
ghost use Rattle.std.specs.Prelude.{◌≡◌, ◌-◌, ◌/◌, ◌≤◌, length};
ghost use Rattle.rules.specs.Clock.{horizon};
ghost use Rattle.rules.specs.Day.{row_width, rows_of};
ghost use Rattle.rules.specs.Lent.{Copied};
ghost use Rattle.day.specs.Rows.{row_of};
ghost use Rattle.passes.specs.Legs.{legs_of, alone, LegRead, made_leg};

use clock::{Length, Reading};
use day::{ROW_WIDTH, Row, row_at};

// A leg: from where, to where, and when it starts and arrives.
#[derive(Clone, Copy)]
pub struct Leg {
    pub from: u32,
    pub to: u32,
    pub start: Length,
    pub arrive: Length,
}

impl Leg {
    // What a room for legs holds before they are laid out.
    pub const BLANK: Leg = Leg {
        from: 0,
        to: 0,
        start: Length(0),
        arrive: Length(0),
    };
}

// The leg with number k, which is leg k - 1 of the legs.
pub(crate) fn leg_no(legs: &[Leg], k: usize) -> Leg
    requires from_one { 1 ≤ k }
    requires within { k ≤ length legs.now }
    ensures { LegRead legs.now (k - 1) result }
{
    legs[k - 1]
}

// The row as a leg, if it starts at a or later and arrives by w.
fn make_leg(r: Row, a: Reading, w: Reading) -> Option<Leg>
    requires { w.0 ≤ horizon }
    ensures { result ≡ made_leg a.0 w.0 (row_of r) }
{
    let since = r.start.minus(a)?;
    let arrival = r.start.plus(r.travel)?;
    if arrival > w {
        return None;
    }
    let arrive = arrival.minus(a)?;
    Some(Leg {
        from: r.from,
        to: r.to,
        start: since,
        arrive,
    })
}

// Lays out the legs of the rows at the front of `legs`, in their order, and answers their number.
pub fn make_legs(rows: &[u32], a: Reading, w: Reading, legs: &mut [Leg]) -> usize
    requires { (w.0 ≤ horizon) × (length rows.now / row_width ≤ length legs.old) }
    ensures { Copied 1 alone (legs_of a.0 w.0 (rows_of rows.now)) legs.old result legs.new }
{
    let mut k = 0;
    for i in 0..rows.len() / ROW_WIDTH {
        if let Some(leg) = make_leg(row_at(rows, i), a, w) {
            legs[k] = leg;
            k += 1;
        }
    }
    k
}
