// The calls of the enquiry desk. Each takes any input, and answers or refuses as the table says.
#![tactic(auto)]

mod answers;
mod ask;
mod backward;
mod checks;
mod forward;
mod joined;
mod lay;
mod office;
mod own;
mod pivots;
mod visits;
mod widest;

pub use answers::Answer;
pub use ask::Ask;
pub use checks::SCRATCH;
pub use day::Refusal;
pub use office::office_check;
pub use pivots::{MOST_PIVOTS, PIVOT_WIDTH};
