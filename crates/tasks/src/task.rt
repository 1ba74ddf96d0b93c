ghost use Rattle.std.specs.Prelude.{◌≡◌, true, ◌↔◌};
ghost use Rattle.tasks.specs.Modes.{number};
ghost use Rattle.tasks.specs.Tasks.{InRange, belongs, budget, critical_in_range, in_range, times_in_range};

use crate::mode::{Mode, PerMode};

// A task as it was handed in: a plain record that may hold any numbers.
// The level is 0 for an everyday task and 1 for a critical one. It is a number, since a sheet may have any byte there, which the
// reader and planning refuse. Times count in ticks.
#[derive(Clone, Copy, Default)]
pub struct Task {
    pub id: u8,
    pub level: u8,
    pub period: u16,
    pub deadline: u16,
    pub budgets: PerMode,
}

// What stands in a place before a task is written there: the default, for a constant, whose value can call no function.
pub const BLANK_TASK: Task = Task {
    id: 0,
    level: 0,
    period: 0,
    deadline: 0,
    budgets: PerMode {
        everyday: 0,
        critical: 0,
    },
};

impl Task {
    // Whether the task runs in this mode.
    pub fn belongs(&self, mode: Mode) -> bool
        ensures value { result ≡ belongs self.now (number mode) }
    {
        mode as u8 <= self.level
    }

    // How many ticks a job of the task may take in this mode.
    pub fn budget(&self, mode: Mode) -> u16
        ensures value { result ≡ budget self.now (number mode) }
    {
        self.budgets.of(mode)
    }

    // Whether every number is in its range.
    pub fn in_range(&self) -> bool
        ensures value { result ≡ in_range self.now }
        ensures exactly { (result ≡ true) ↔ InRange self.now }
    {
        self.level <= 1 && self.times_in_range() && self.critical_in_range()
    }

    // The period, the deadline and the everyday budget.
    fn times_in_range(&self) -> bool
        ensures value { result ≡ times_in_range self.now }
    {
        self.period <= 60_000
            && self.deadline <= self.period
            && self.budgets.everyday <= self.deadline
            && 1 <= self.budgets.everyday
    }

    // The critical budget: from the everyday budget to the deadline, and 0 for an everyday task.
    fn critical_in_range(&self) -> bool
        ensures value { result ≡ critical_in_range self.now }
    {
        if self.level == 0 {
            self.budgets.critical == 0
        } else {
            self.budgets.everyday <= self.budgets.critical && self.budgets.critical <= self.deadline
        }
    }
}
