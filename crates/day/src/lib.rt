// A day list as rows: one row read, what an asker sees, the asker's rows copied out, the first row that is wrong, and why a call refuses.
#![tactic(auto)]

mod faults;
mod own;
mod refusal;
mod row;

pub use faults::{first_fault, first_wrong};
pub use own::own_rows;
pub use refusal::Refusal;
pub use row::{LAST_CLIENT, MOST_ROWS, ROW_WIDTH, Row, row_at};
