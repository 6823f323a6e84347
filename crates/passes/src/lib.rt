// Scans over own rows: legs laid out once, the forward pass from a source, and the backward sweep to a target.
#![tactic(auto)]

mod backward;
mod begin;
mod forward;
mod legs;
mod linked;
mod links;
mod reach;
mod table;

pub use forward::{UNREACHED, forward_pass};
pub use legs::{Leg, make_legs};
pub use linked::LinkedLegs;
pub use links::Links;
pub use reach::reach_back;
pub use table::fill_table;
