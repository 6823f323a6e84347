// Why a call refuses: the numbers of the table, by name.
ghost use Rattle.std.specs.Prelude.{◌≡◌};
ghost use Rattle.day.specs.Refusals.{number_of, place_of};

use std::fmt;

// A refusal. Where the table gives a place, it comes along.
#[derive(Clone, Copy, PartialEq, Eq)]
pub enum Refusal {
    // The list is not of whole rows.
    Width,
    // There are more rows than a list may hold.
    Rows,
    // There are no stops, or too many.
    Stops,
    // There is no such asker.
    Asker,
    // The interval ends before it begins, or past the horizon.
    Interval,
    // A row has a fault.
    Row { place: u32 },
    // A named source or target is no stop.
    Named,
    // The pivots are not whole, or too many.
    Pivots,
    // A pivot is not at a stop, or not in the interval.
    Pivot { place: u32 },
    // A lent list is too short.
    Room,
    // A row's owner is no client.
    Owner { place: u32 },
    // A joined pair has no route. The table has this number, and no call gives it.
    Unrouted,
}

impl Refusal {
    // Its number in the table.
    pub fn number(self) -> u32
        ensures { result ≡ number_of self }
    {
        match self {
            Refusal::Width => 1,
            Refusal::Rows => 2,
            Refusal::Stops => 3,
            Refusal::Asker => 4,
            Refusal::Interval => 5,
            Refusal::Row { .. } => 6,
            Refusal::Named => 7,
            Refusal::Pivots => 8,
            Refusal::Pivot { .. } => 9,
            Refusal::Room => 10,
            Refusal::Owner { .. } => 11,
            Refusal::Unrouted => 12,
        }
    }

    // Its place: 0 where the table gives none.
    pub fn place(self) -> u32
        ensures { result ≡ place_of self }
    {
        match self {
            Refusal::Row { place } | Refusal::Pivot { place } | Refusal::Owner { place } => place,
            _ => 0,
        }
    }
}

// As the figures program writes it.
impl fmt::Display for Refusal {
    ghost use Rattle.std.specs.Prelude.{Some};
    ghost use Rattle.day.specs.Refusals.{refusal_text};

    ghost output = { λ r. Some (refusal_text r) };

    fn fmt<W: fmt::Write>(&self, f: &mut fmt::Formatter<W>) -> fmt::Result {
        write!(f, "refused {} {}", self.number(), self.place())
    }
}
