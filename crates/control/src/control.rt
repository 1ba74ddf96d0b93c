use crate::jobs::Jobs;
use crate::tallies::Tallies;
use planner::Plan;
use tasks::Mode;

// A control over a bench. It is not loaded yet while its plan has no controllers: a plan not yet filled, which is what the
// machine's state and the promise of a load speak of too. An `Option` around it would say the same twice.
#[derive(Drop)]
pub struct Control<B> {
    pub(crate) bench: B,
    pub(crate) plan: Plan,
    pub(crate) mode: Mode,
    // The instant at which the mode opened, and the next instant.
    pub(crate) opening: u64,
    pub(crate) next: u64,
    pub(crate) jobs: Jobs,
    pub(crate) tallies: Tallies,
}
