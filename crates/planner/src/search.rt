// The least start of a task beside the rows placed before it.
ghost use Rattle.std.specs.Prelude.{◌≡◌, ◌+◌, ◌≤◌, length};
ghost use Rattle.std.specs.Int.{IsGcd};
ghost use Rattle.planner.specs.Placing.{Clear};
ghost use Rattle.planner.specs.Rows.{Sound};
ghost use Rattle.planner.specs.Searching.{Divide, LeastIf, Pushes};
ghost use Rattle.planner.specs.Standing.{EachSound};
ghost use Rattle.tasks.specs.Modes.{number};
ghost use Rattle.tasks.specs.Tasks.{Belongs, InRange, budget};

use crate::row::Row;
use slots::{Slot, gcd};
use tasks::{Mode, Task};

// A task that is to be placed beside the rows placed before it.
#[derive(Drop)]
pub(crate) struct Search<'a> {
    pub(crate) placed: &'a [Row],
    pub(crate) task: &'a Task,
    // For each placed row the greatest common divisor of the task's period and its own: found once, for every controller, mode
    // and start that is then tried. An array beside the rows, since these are the caller's and memory is fixed.
    divisors: [u32; 64],
    ghost range: { InRange task.now },
    ghost short: { length placed.now ≤ length divisors },
    ghost sound: { EachSound placed.now },
    ghost divide: { Divide divisors placed.now task.now },
}

impl<'a> Search<'a> {
    // The search, with the divisors found.
    pub(crate) fn new(placed: &'a [Row], task: &'a Task) -> Search<'a>
        requires range { InRange task.now }
        requires short { length placed.now ≤ 64 }
        requires sound { EachSound placed.now }
        ensures placed { result.placed.now ≡ placed.now }
        ensures task { result.task.now ≡ task.now }
    {
        let mut divisors = [0; 64];
        // By index: tried with `iter_mut().zip(placed)` and with `array::from_fn`, and neither proof closes.
        for (i, row) in placed.iter().enumerate() {
            divisors[i] = gcd(u32::from(task.period), u32::from(row.task.period));
        }
        Search {
            placed,
            task,
            divisors,
        }
    }

    // How far on the row pushes the task's start on this controller and in this mode: 0 where they do not meet from here, and a
    // whole period, so past the deadline, where they meet from every start.
    fn push(&self, controller: u8, mode: Mode, start: u16, row: &Row, divisor: u32) -> u32
        requires belongs { Belongs self.now.task.now (number mode) }
        requires fits { start + budget self.now.task.now (number mode) ≤ self.now.task.now.deadline }
        requires sound { Sound row.now }
        requires divides { IsGcd self.now.task.now.period row.now.task.period divisor }
        ensures pushes { Pushes controller (number mode) self.now.task.now start row.now result }
    {
        if row.controller != controller || !row.task.belongs(mode) {
            return 0;
        }
        // Two literals: one function for both would need the facts of a slot's invariant as clauses.
        let own = Slot {
            start,
            budget: self.task.budget(mode),
            period: self.task.period,
        };
        let other = Slot {
            start: row.start(mode),
            budget: row.task.budget(mode),
            period: row.task.period,
        };
        // By a closure: with `unwrap_or` the whole planning takes a fifth longer.
        own.hop(&other, divisor)
            .unwrap_or_else(|| u32::from(self.task.period))
    }

    // The least start from which the task ends within its deadline and meets no placed row on this controller in this mode.
    pub(crate) fn least_start(&self, controller: u8, mode: Mode) -> Option<u16>
        requires belongs { Belongs self.now.task.now (number mode) }
        ensures least { LeastIf (Clear controller (number mode) self.now.placed.now self.now.task.now) result }
    {
        let last = u32::from(self.task.deadline - self.task.budget(mode));
        let mut next = 0;
        // Left by label at the first row that meets: no count, since a start that meets is followed by the next that may not.
        'starts: while next <= last {
            let start = next;
            for (row, divisor) in self.placed.iter().zip(&self.divisors) {
                let further = self.push(controller, mode, start as u16, row, *divisor);
                if further > 0 {
                    next = start + further;
                    continue 'starts;
                }
            }
            return Some(start as u16);
        }
        None
    }
}
