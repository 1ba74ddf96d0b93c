// Runs: a plan loaded on a control and a list of calls sent to it, each written down with its answer; and the whole way, from
// tasks over their plan to such a run.
#![tactic(auto)]

mod running;
mod sending;
mod whole;

pub use running::run;
pub use sending::send;
pub use whole::plan_and_run;
