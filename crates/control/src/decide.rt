// What a tick will do, decided before anything is touched.
ghost use Rattle.std.specs.Prelude.{◌≡◌, ℕ, ◌-◌, ◌<◌, ◌≤◌, false, length, is_some, Some, None, slice_index_or};
ghost use Rattle.std.specs.List.{slice_get};
ghost use Rattle.tasks.specs.Modes.{number};
ghost use Rattle.planner.specs.Plans.{rows_of};
ghost use Rattle.machine.specs.Below.{first_below};
ghost use Rattle.machine.specs.Machine.{blocked, budget_at, due_at, due_in, spent_on, switches};
ghost use Rattle.control.specs.States.{state_of};
ghost use Rattle.control.specs.Turns.{Decided, cut_row};

use crate::control::Control;
use crate::turn::Turn;
use benches::Bench;
use planner::Row;
use tasks::Mode;

// Whether the row is on the controller and of the mode, and its turn comes after so many instants of the mode.
fn is_due(row: &Row, controller: u8, mode: Mode, elapsed: u64) -> bool
    requires period { 1 ≤ row.now.task.period }
    ensures value { result ≡ due_at (Some row.now) (number mode) elapsed controller }
{
    row.controller == controller
        && row.task.belongs(mode)
        && elapsed % u64::from(row.task.period) == u64::from(row.start(mode))
}

// What the rule gives for each of so many controllers. It is not asked for others: for two controllers that saves a third of a tick.
fn by_controller<F: Fn(u8) -> Option<u8>>(count: u8, rule: F) -> [Option<u8>; 8]
    requires callable { F.IsAlwaysCallable rule }
    ensures each { (c : ℕ) → c < 8 → c < count → F.post rule c (slice_index_or result c None) }
{
    std::array::from_fn(|c| {
        let controller = c as u8;
        if controller < count {
            rule(controller)
        } else {
            None
        }
    })
}

impl<B: Bench> Control<B> {
    // The row that the controller is busy with, if there is such a controller and it is.
    pub(crate) fn row_on(&self, controller: u8) -> Option<u8>
        ensures value { result ≡ slice_index_or (B.Bench.meaning self.now.bench) controller None }
    {
        self.bench.state(controller).unwrap_or(None)
    }

    // How many ticks a job of the row may take in the present mode, and 0 where the plan has no such row.
    fn budget(&self, row: u8) -> u16
        ensures value { result ≡ budget_at (slice_get (rows_of self.now.plan) row) (number self.now.mode) }
    {
        // A match: tried with `map_or`, and the proof does not close.
        match self.plan.rows().get(usize::from(row)) {
            Some(row) => row.task.budget(self.mode),
            None => 0,
        }
    }

    // Whether the controller's job has had its budget.
    fn spent(&self, controller: u8) -> bool
        ensures value { result ≡ spent_on (state_of B.Bench.meaning self.now) controller }
    {
        let ran = self.next.saturating_sub(self.jobs.since(controller));
        self.row_on(controller)
            .is_some_and(|row| u64::from(self.budget(row)) <= ran)
    }

    fn some_spent(&self) -> bool
        ensures value { result ≡ is_some (first_below (length (B.Bench.meaning self.now.bench)) (spent_on (state_of B.Bench.meaning self.now))) }
    {
        (0..self.bench.count()).any(|c| self.spent(c))
    }

    // Whether the tick switches to the critical mode.
    pub(crate) fn switches(&self) -> bool
        ensures value { result ≡ switches (state_of B.Bench.meaning self.now) }
    {
        self.mode == Mode::Everyday && self.some_spent()
    }

    // The row that is due on the controller after so many instants of the mode.
    pub(crate) fn due(&self, controller: u8, mode: Mode, elapsed: u64) -> Option<u8>
        ensures value { result ≡ due_in (rows_of self.now.plan) (number mode) elapsed controller }
    {
        self.plan
            .rows()
            .iter()
            .position(|row| is_due(row, controller, mode, elapsed))
            .map(|row| row as u8)
    }

    // The row whose job the tick cuts on the controller: any where the tick switches, else one that is spent.
    fn cut_row(&self, switching: bool, controller: u8) -> Option<u8>
        ensures value { result ≡ cut_row switching (state_of B.Bench.meaning self.now) controller }
    {
        if switching || self.spent(controller) {
            self.row_on(controller)
        } else {
            None
        }
    }

    pub(crate) fn decide(&self) -> Turn
        ensures decided { Decided (state_of B.Bench.meaning self.now) result }
    {
        let switches = self.switches();
        let (mode, opening) = if switches {
            (Mode::Critical, self.next)
        } else {
            (self.mode, self.opening)
        };
        let elapsed = self.next.saturating_sub(opening);
        let count = self.bench.count();
        Turn {
            switches,
            cuts: by_controller(count, |c| self.cut_row(switches, c)),
            starts: by_controller(count, |c| self.due(c, mode, elapsed)),
        }
    }

    // Whether a row is due on the controller that would not be idle then.
    fn is_blocked(&self, turn: &Turn, controller: u8) -> bool
        requires decided { Decided (state_of B.Bench.meaning self.now) turn.now }
        requires there { controller < length (B.Bench.meaning self.now.bench) }
        ensures value { result ≡ blocked (state_of B.Bench.meaning self.now) controller }
    {
        let at = usize::from(controller);
        // One test after the other: tried as one chain, and the proof does not close, since the two ways to false join.
        if turn.starts[at].is_none() {
            return false;
        }
        if turn.cuts[at].is_some() {
            return false;
        }
        self.row_on(controller).is_some()
    }

    // The lowest controller on which a row is due that would not be idle then.
    pub(crate) fn blocked(&self, turn: &Turn) -> Option<u8>
        requires decided { Decided (state_of B.Bench.meaning self.now) turn.now }
        ensures value { result ≡ first_below (length (B.Bench.meaning self.now.bench)) (blocked (state_of B.Bench.meaning self.now)) }
    {
        (0..self.bench.count()).find(|&c| self.is_blocked(turn, c))
    }
}
