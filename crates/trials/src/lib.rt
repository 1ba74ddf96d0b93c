// The worked examples of planning and of the control, held together by the definitions that the contracts apply; and a caller of the
// register bench.
#![tactic(auto)]

mod lent;
mod trial;
mod trials;

pub use lent::start_on_lent_bytes;
pub use trial::{Quiet, Run, Stuck};
pub use trials::{Trials, worked_trials};
