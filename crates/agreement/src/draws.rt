// Small sheets drawn at random, the same in every run.
ghost use Rattle.std.specs.Prelude.{◌<◌, ◌≤◌, IfSome};

use crate::sheets::{Sheet, Task};
use std::alloc::{AllocError, Global};

// Their common periods are short, and their divisors many.
const PERIODS: [usize; 10] = [4, 6, 8, 9, 10, 12, 15, 18, 20, 24];

// A linear congruential generator.
#[derive(Drop)]
pub(crate) struct Draws {
    state: u64,
}

impl Draws {
    pub(crate) fn new(seed: u64) -> Draws {
        Draws { state: seed }
    }

    // The low bits of the state repeat soon, so the high ones are drawn.
    fn below(&mut self, count: usize) -> usize
        requires { 0 < count }
        ensures { result < count }
    {
        self.state = self
            .state
            .wrapping_mul(6_364_136_223_846_793_005)
            .wrapping_add(1_442_695_040_888_963_407);
        (self.state >> 33) as usize % count
    }

    // Every number is in its range. The budgets are small beside the deadline, so that many sheets can be planned.
    fn task(&mut self, id: usize) -> Task
        ensures deadline { (1 ≤ result.deadline) × (result.deadline ≤ result.period) }
        ensures everyday { (1 ≤ result.everyday_budget) × (result.everyday_budget ≤ result.deadline) }
        ensures critical { IfSome result.critical_budget (λ budget. (result.everyday_budget ≤ budget) × (budget ≤ result.deadline)) }
    {
        let period = PERIODS[self.below(PERIODS.len())];
        let deadline = period - self.below(period / 2 + 1);
        let everyday_budget = 1 + self.below(deadline / 4 + 1);
        let is_critical = self.below(2) == 1;
        let critical_budget = is_critical.then(|| {
            let spare = deadline - everyday_budget;
            everyday_budget + self.below(everyday_budget.min(spare) + 1)
        });
        Task {
            id,
            period,
            deadline,
            everyday_budget,
            critical_budget,
        }
    }

    // A sheet's rows stand by rising period.
    pub(crate) fn sheet(&mut self, alloc: Global) -> Result<Sheet, AllocError> {
        let controllers = 1 + self.below(3);
        let count = 2 + self.below(5);
        let mut tasks: Vec<Task> = (1..=count).map(|id| self.task(id)).collect(alloc)?;
        tasks.sort_by_key(|task| task.period)?;
        Ok(Sheet { controllers, tasks })
    }
}
