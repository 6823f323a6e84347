// The calls of `figures` for C and Rust to link. Each is a thin call, and its answer is written as five numbers.
#![tactic(auto)]

mod backward;
mod forward;
mod office;
mod reply;
mod widest;

pub use backward::{figures_backward_eccentricity, figures_distances_to};
pub use forward::{figures_distances_from, figures_forward_eccentricity, figures_table};
pub use office::figures_office_check;
pub use widest::{figures_diameter, figures_pivot_diameter};
