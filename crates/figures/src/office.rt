// The office check: it reads all rows, whoever owns them.
ghost use Rattle.figures.specs.Promises.{OfficePromise};

use crate::checks::list_check;
use day::{ROW_WIDTH, Refusal, first_wrong};

// The number of rows of a list that has nothing wrong, for n stops.
pub fn office_check(list: &[u32], n: u32) -> Result<u32, Refusal>
    ensures { OfficePromise list.now n result }
{
    list_check(list, n)?;
    first_wrong(list, n)?;
    let rows = list.len() / ROW_WIDTH;
    Ok(rows as u32)
}
