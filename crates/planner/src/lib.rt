// Plans: which controller runs which task, and from which start in each mode.
#![tactic(auto)]

mod place;
mod planning;
mod plans;
mod read;
mod row;
mod search;

pub use planning::plan;
pub use plans::Plan;
pub use row::{NO_START, Row};
