// Policies: in which order the controllers are tried for a task. Each proves that its order leaves out no controller.
#![tactic(auto)]

mod count;
mod ends;
mod front;
mod listed;
mod names;
mod policy;
mod roster;
mod round;
mod walk;

pub use ends::Ends;
pub use front::Front;
pub use listed::Listed;
pub use policy::Policy;
pub use round::Round;
