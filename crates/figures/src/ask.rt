// What every asking call does first: checks 1 to 6, and the asker's rows copied out. Whatever comes after sees those rows alone.
ghost use Rattle.std.specs.Prelude.{◌*◌, ◌≤◌, length};
ghost use Rattle.rules.specs.Day.{most_rows, row_width};
ghost use Rattle.figures.specs.Parts.{Prepares};
ghost use Rattle.figures.specs.Own.{Owns};
ghost use Rattle.figures.specs.Promises.{asked};

use crate::own::Own;
use clock::Reading;
use day::{MOST_ROWS, ROW_WIDTH, Refusal, first_fault, own_rows};

// How many numbers the rows of a list take at most.
pub const ROWS_ROOM: usize = MOST_ROWS * ROW_WIDTH;

// What every asking call is given: the day list, the number of stops, who asks, and the interval from a to w.
#[derive(Clone, Copy)]
pub struct Ask<'a> {
    pub list: &'a [u32],
    pub n: u32,
    pub asker: u32,
    pub a: u32,
    pub w: u32,
}

impl Ask<'_> {
    // Numbers 1 to 6, and the asker's rows in the front of `rows`; answers how many there are.
    fn prepare(self, rows: &mut [u32]) -> Result<usize, Refusal>
        requires { most_rows * row_width ≤ length rows.old }
        ensures { Prepares (asked self.entry) rows.old result rows.new }
    {
        self.plain_check()?;
        let k = own_rows(self.list, self.asker, rows);
        first_fault(&rows[..k * ROW_WIDTH], self.n)?;
        Ok(k)
    }

    // The asker's own rows, copied into `rows`, where numbers 1 to 6 pass.
    pub(crate) fn own<'r>(self, rows: &'r mut [u32]) -> Result<Own<'r>, Refusal>
        requires { most_rows * row_width ≤ length rows.old }
        ensures { Owns (asked self.entry) result }
    {
        let k = self.prepare(rows)?;
        Ok(Own {
            rows: &rows[..k * ROW_WIDTH],
            n: self.n,
            a: Reading(self.a),
            w: Reading(self.w),
        })
    }
}
