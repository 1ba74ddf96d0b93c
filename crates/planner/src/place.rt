// The controller and the starts of a task beside the rows placed before it.
ghost use Rattle.planner.specs.Searching.{ChosenAs, TakenAs};

use crate::row::{NO_START, Row};
use crate::search::Search;
use policies::Policy;
use tasks::{Mode, PerMode};

impl Search<'_> {
    // The row for the task on this controller, if the controller takes it.
    fn on(&self, controller: u8) -> Option<Row>
        ensures taken { TakenAs controller self.now.placed.now self.now.task.now result }
    {
        let everyday = self.least_start(controller, Mode::Everyday)?;
        let critical = if self.task.belongs(Mode::Critical) {
            self.least_start(controller, Mode::Critical)?
        } else {
            NO_START
        };
        Some(Row {
            task: *self.task,
            controller,
            starts: PerMode { everyday, critical },
        })
    }

    // The row for the task on the first controller in the policy's order that takes it.
    pub(crate) fn choose<P: Policy>(&self, policy: &P) -> Option<Row>
        ensures chosen { ChosenAs (P.Policy.meaning.count policy.now) (P.Policy.meaning.order policy.now self.now.task.now.level) self.now.placed.now self.now.task.now result }
    {
        (0..policy.count()).find_map(|k| self.on(policy.place(self.task.level, k)?))
    }
}
