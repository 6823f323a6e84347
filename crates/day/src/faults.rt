// The first row of a list that is wrong, with its number from 0.
ghost use Rattle.std.specs.Prelude.{◌≡◌, ◌/◌, ◌≤◌, length};
ghost use Rattle.std.proofs.Math.Option.{none};
ghost use Rattle.rules.specs.Day.{row_width, most_rows, rows_of};
ghost use Rattle.day.specs.Rows.{row_of};
ghost use Rattle.day.specs.Verdicts.{told, said_or, first_said, fault_says, office_says, Says, SaysBy};

use crate::refusal::Refusal;
use crate::row::{LAST_CLIENT, ROW_WIDTH, Row, row_at};
use clock::Reading;

impl Row {
    // A row at a place is refused if it has a fault.
    fn check(self, n: u32, last: Reading, place: u32) -> Result<(), Refusal>
        ensures { told result ≡ said_or (fault_says n last.0 (row_of self)) place none }
    {
        if self.is_right(n, last) {
            Ok(())
        } else {
            Err(Refusal::Row { place })
        }
    }

    // And in the office check if its owner is no client.
    fn office_check(self, n: u32, last: Reading, place: u32) -> Result<(), Refusal>
        ensures { told result ≡ said_or (office_says n last.0 (row_of self)) place none }
    {
        self.check(n, last, place)?;
        if self.owner <= LAST_CLIENT {
            Ok(())
        } else {
            Err(Refusal::Owner { place })
        }
    }
}

// Each row of a list is checked, with its number and when the row before it started.
fn check_rows<F: Fn(Row, Reading, u32) -> Result<(), Refusal>>(
    list: &[u32],
    check: F,
) -> Result<(), Refusal>
    requires rows { length list.now / row_width ≤ most_rows }
    requires callable { F.IsAlwaysCallable check }
    ensures { (says : Says) → SaysBy (F.post check) says → told result ≡ first_said says 0 0 (rows_of list.now) }
{
    let mut last = Reading(0);
    for i in 0..list.len() / ROW_WIDTH {
        let row = row_at(list, i);
        check(row, last, i as u32)?;
        last = row.start;
    }
    Ok(())
}

// The first faulty row.
pub fn first_fault(rows: &[u32], n: u32) -> Result<(), Refusal>
    requires { length rows.now / row_width ≤ most_rows }
    ensures { told result ≡ first_said (fault_says n) 0 0 (rows_of rows.now) }
{
    check_rows(rows, |row, last, place| row.check(n, last, place))
}

// The office check's scan: the first faulty row, or the first owner above 255 if that comes before.
pub fn first_wrong(list: &[u32], n: u32) -> Result<(), Refusal>
    requires { length list.now / row_width ≤ most_rows }
    ensures { told result ≡ first_said (office_says n) 0 0 (rows_of list.now) }
{
    check_rows(list, |row, last, place| row.office_check(n, last, place))
}
