// The answers of the calls.
ghost use Rattle.std.specs.Prelude.{◌≡◌};
ghost use Rattle.figures.specs.Answered.{eccentricity_of, answer_of, refused_by, ended};

use clock::Length;
use day::Refusal;
use search::{Far, Search};
use std::fmt;

// A diameter: a value with its pair and the visits, none with the visits, or a refusal with its number and place.
#[derive(Clone, Copy, PartialEq, Eq)]
pub enum Answer {
    Value {
        value: Length,
        from: u32,
        to: u32,
        visits: u32,
    },
    Nothing {
        visits: u32,
    },
    Refused {
        number: u32,
        place: u32,
    },
}

// The answer that a search ends with.
impl From<Search> for Answer {
    ghost from_gives = { λ st r. r ≡ answer_of st };

    fn from(st: Search) -> Answer {
        if st.best == 0 {
            return Answer::Nothing { visits: st.visits };
        }
        Answer::Value {
            value: Length(st.best),
            from: st.source,
            to: st.target,
            visits: st.visits,
        }
    }
}

impl From<Refusal> for Answer {
    ghost from_gives = { λ x r. r ≡ refused_by x };

    fn from(refusal: Refusal) -> Answer {
        Answer::Refused {
            number: refusal.number(),
            place: refusal.place(),
        }
    }
}

impl From<Result<Search, Refusal>> for Answer {
    ghost from_gives = { λ end r. r ≡ ended end };

    fn from(end: Result<Search, Refusal>) -> Answer {
        match end {
            Ok(st) => Answer::from(st),
            Err(refusal) => Answer::from(refusal),
        }
    }
}

// As the figures program writes it.
impl fmt::Display for Answer {
    ghost use Rattle.std.specs.Prelude.{Some};
    ghost use Rattle.figures.specs.Answered.{answer_text};

    ghost output = { λ r. Some (answer_text r) };

    fn fmt<W: fmt::Write>(&self, f: &mut fmt::Formatter<W>) -> fmt::Result {
        match *self {
            Answer::Value {
                value,
                from,
                to,
                visits,
            } => write!(f, "{} {from} {to} {visits}", value.0),
            Answer::Nothing { visits } => write!(f, "none {visits}"),
            Answer::Refused { number, place } => write!(f, "refused {number} {place}"),
        }
    }
}

// The eccentricity that a farthest stop shows.
pub(crate) fn eccentricity_of(far: Far) -> Option<Length>
    ensures { result ≡ eccentricity_of far }
{
    (far.value > 0).then_some(Length(far.value))
}
