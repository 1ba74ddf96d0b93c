// The search over every instant: it knows the rules of placing and none of the planner's ways.
use crate::sheets::{Sheet, Task};
use crate::timetable::Timetable;
use anyhow::Context;
use std::alloc::{AllocError, Global};

// Where a row went: its controller, and its start in each of its modes.
#[derive(Clone, Copy)]
pub(crate) struct Placement {
    pub(crate) controller: usize,
    pub(crate) everyday: usize,
    // Of a critical task.
    pub(crate) critical: Option<usize>,
}

#[derive(Drop)]
pub(crate) enum Outcome {
    // One for each row.
    Planned(Vec<Placement>),
    // The first row that no controller takes.
    Refused(usize),
}

#[derive(Drop)]
struct Controller {
    everyday: Timetable,
    critical: Timetable,
}

impl Controller {
    fn new(alloc: Global, common_period: usize) -> Result<Controller, AllocError> {
        Ok(Controller {
            everyday: Timetable::new(alloc, common_period)?,
            critical: Timetable::new(alloc, common_period)?,
        })
    }

    // Where the task has a start in each of its modes, takes it there.
    fn take(&mut self, number: usize, task: &Task) -> Option<Placement> {
        let everyday = self.everyday.least_start(task, task.everyday_budget)?;
        let critical = match task.critical_budget {
            Some(budget) => {
                let start = self.critical.least_start(task, budget)?;
                self.critical.occupy(task, start, budget);
                Some(start)
            }
            None => None,
        };
        self.everyday.occupy(task, everyday, task.everyday_budget);
        Some(Placement {
            controller: number,
            everyday,
            critical,
        })
    }
}

// The first controller that takes the task.
fn place(controllers: &mut [Controller], task: &Task) -> Option<Placement> {
    for (number, controller) in controllers.iter_mut().enumerate() {
        if let Some(placement) = controller.take(number, task) {
            return Some(placement);
        }
    }
    None
}

pub(crate) fn search(alloc: Global, sheet: &Sheet) -> anyhow::Result<Outcome> {
    let common_period = sheet.common_period().context("common period too long")?;
    let mut controllers: Vec<Controller> = (0..sheet.controllers)
        .map(|_| Controller::new(alloc, common_period))
        .try_collect(alloc)?;
    let mut placements = Vec::new(alloc);
    for (row, task) in sheet.tasks.iter().enumerate() {
        match place(&mut controllers, task) {
            Some(placement) => placements.push(placement)?,
            None => return Ok(Outcome::Refused(row)),
        }
    }
    Ok(Outcome::Planned(placements))
}
