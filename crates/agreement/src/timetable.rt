// Which instants are occupied, and the least start that meets none of them.
ghost use Rattle.std.specs.Prelude.{◌+◌, ◌≤◌, IfSome};

use crate::sheets::Task;
use std::alloc::{AllocError, Global};

// A controller in one mode: a place for each instant of the common period, true where an earlier row runs.
#[derive(Drop)]
pub(crate) struct Timetable {
    occupied: Vec<bool>,
}

impl Timetable {
    pub(crate) fn new(alloc: Global, common_period: usize) -> Result<Timetable, AllocError> {
        let occupied = vec![in alloc; false; common_period]?;
        Ok(Timetable { occupied })
    }

    // Whether the task, begun there in each of its periods, runs at no occupied instant.
    fn is_free(&self, task: &Task, start: usize, budget: usize) -> bool {
        self.occupied.chunks(task.period).all(|instants| {
            instants
                .iter()
                .skip(start)
                .take(budget)
                .all(|&occupied| !occupied)
        })
    }

    // The least start that is free and ends within the deadline.
    pub(crate) fn least_start(&self, task: &Task, budget: usize) -> Option<usize>
        ensures within { IfSome result (λ start. start + budget ≤ task.now.deadline) }
    {
        let last = task.deadline.checked_sub(budget)?;
        (0..=last).find(|&start| self.is_free(task, start, budget))
    }

    pub(crate) fn occupy(&mut self, task: &Task, start: usize, budget: usize) {
        for instants in self.occupied.chunks_mut(task.period) {
            instants
                .iter_mut()
                .skip(start)
                .take(budget)
                .for_each(|occupied| *occupied = true);
        }
    }
}
