ghost use Rattle.trials.specs.Trials.{TrialsHold};

use crate::trial::{
    Quiet, Run, Stuck, alone, critical, cut, due_by, everyday, idle, no_room, row, start, tick,
};
use machine::Event::Switch;
use planner::{NO_START, Row};

// What planning makes of tasks for one controller, and what a control makes of a plan.
pub struct Trials {
    pub coprime_periods: [Row; 2],
    pub budgets_just_fit: [Row; 2],
    pub budgets_just_too_long: Stuck<1>,
    pub deadline_just_allows: [Row; 2],
    pub deadline_just_forbids: Stuck<1>,
    pub sums_look_feasible: Stuck<3>,
    // Whether the everyday budgets of each two of these are no more than the greatest common divisor of their periods.
    pub pairs_fit: bool,
    pub both_modes: [Row; 3],
    // The sample plan, for two controllers: at tick 2 a job has had its everyday budget.
    pub overrun: Run<4, 3>,
    pub no_tasks: Quiet,
}

// Each example, with what comes of it.
pub fn worked_trials() -> Trials
    ensures hold { TrialsHold result }
{
    let four = alone(everyday(1, 4, 1), 0);
    let six = alone(everyday(2, 6, 1), 1);
    let twelve = alone(everyday(3, 12, 3), 9);
    Trials {
        coprime_periods: [four, six],
        budgets_just_fit: [alone(everyday(1, 8, 2), 0), alone(everyday(2, 12, 2), 2)],
        budgets_just_too_long: no_room([alone(everyday(1, 8, 2), 0)], everyday(2, 12, 3), 1),
        deadline_just_allows: [alone(everyday(1, 20, 4), 0), alone(due_by(2, 20, 7, 3), 4)],
        deadline_just_forbids: no_room([alone(everyday(1, 20, 4), 0)], due_by(2, 20, 6, 3), 1),
        sums_look_feasible: no_room([four, six, twelve], everyday(4, 12, 3), 3),
        pairs_fit: true,
        both_modes: [
            alone(everyday(1, 10, 3), 0),
            row(critical(2, 20, 20, [2, 4]), 0, [3, 0]),
            row(critical(3, 30, 30, [5, 6]), 0, [5, 4]),
        ],
        overrun: Run {
            rows: [
                row(critical(10, 10, 10, [2, 4]), 0, [0, 0]),
                row(everyday(11, 15, 3), 0, [2, NO_START]),
                row(critical(12, 20, 12, [3, 5]), 1, [0, 0]),
                row(everyday(13, 30, 4), 0, [5, NO_START]),
            ],
            ticks: [
                tick(5, [start(0, 0), start(1, 2)]),
                tick(5, []),
                tick(5, [Switch, cut(0, 0), cut(1, 2), start(0, 0), start(1, 2)]),
            ],
        },
        no_tasks: idle(8, 1 << 40),
    }
}
