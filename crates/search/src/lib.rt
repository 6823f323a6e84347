// The search for the farthest pair: bounds, the order of targets, the farthest source of a target, the state.
#![tactic(auto)]

mod entries;
mod far;
mod pivots;
mod state;
mod targets;

pub use entries::bounds;
pub use far::{Far, farthest};
pub use pivots::{PivotNumbers, keep_joined, pivot_bounds};
pub use state::Search;
pub use targets::{Place, next_target};
