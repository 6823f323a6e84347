// Clock readings and lengths of time, in whole seconds, kept apart by type: nothing here adds two readings.
#![tactic(auto)]

ghost use Rattle.std.specs.Prelude.{◌≡◌, ◌+◌};
ghost use Rattle.clock.specs.Time.{made_of, gap_of, last_reading};

// A reading of the clock.
#[derive(Clone, Copy, PartialEq, Eq, PartialOrd, Ord)]
pub struct Reading(pub u32);

// A length of time.
#[derive(Clone, Copy, PartialEq, Eq, PartialOrd, Ord)]
pub struct Length(pub u32);

impl Reading {
    // The last reading there is: 72 hours.
    pub const HORIZON: Reading = Reading(259200);

    // The reading at x seconds, or none past the horizon.
    pub fn of(x: u32) -> Option<Reading>
        ensures { result ≡ made_of x }
    {
        let reading = Reading(x);
        (reading <= Reading::HORIZON).then_some(reading)
    }

    // A length on from this reading, or none past the horizon; the sum is exact.
    pub fn plus(self, length: Length) -> Option<Reading>
        ensures { result ≡ made_of (self.0 + length.0) }
    {
        let sum = u64::from(self.0) + u64::from(length.0);
        if sum <= u64::from(Reading::HORIZON.0) {
            Some(Reading(sum as u32))
        } else {
            None
        }
    }

    // This reading less an earlier one, or none where the other is the later.
    pub fn minus(self, earlier: Reading) -> Option<Length>
        ensures { result ≡ gap_of self.0 earlier.0 }
    {
        self.0.checked_sub(earlier.0).map(Length)
    }
}

// The constant is the horizon of the rules.
pub fn horizon() -> Reading
    ensures constant { result.0 ≡ Reading.HORIZON.0 }
    ensures rules { result ≡ last_reading }
{
    Reading::HORIZON
}
