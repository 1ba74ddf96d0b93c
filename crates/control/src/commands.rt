// What a control is told to do. Each command says by `Steps` what it leaves: a fact of a control before and after, which no
// invariant can take.
ghost use Rattle.std.specs.Prelude.{◌≡◌, cond, length, Ok};
ghost use Rattle.records.specs.Lists.{lent};
ghost use Rattle.machine.specs.Machine.{end_answer, load_answer, return_answer, tick_answer, unloaded, when_loaded};
ghost use Rattle.machine.specs.declared.entry.Call.TheVariants.{Report, Return, Strike, Tick};
ghost use Rattle.control.specs.Calls.{Ends, EventsAfter, Loads, Steps, counted};
ghost use Rattle.control.specs.States.{state_of};

use crate::control::Control;
use crate::jobs::Jobs;
use crate::tallies::{Tallies, with_cut, with_report};
use benches::{Bench, lowest_busy};
use machine::Event;
use planner::Plan;
use records::Records;
use tasks::{BenchFault, ControlFault, Mode};

// The first instant that is not ticked any more.
const END_OF_TIME: u64 = 1 << 40;

impl<B: Bench> Control<B> {
    // A control over the bench, with no plan loaded.
    pub fn new(bench: B) -> Control<B>
        ensures state { state_of B.Bench.meaning result ≡ unloaded (B.Bench.meaning bench) }
        ensures bench { result.bench ≡ bench }
    {
        Control {
            bench,
            plan: Plan::new(),
            mode: Mode::Everyday,
            opening: 0,
            next: 0,
            jobs: Jobs::new(),
            tallies: Tallies::new(),
        }
    }

    // Refuses while no plan is loaded.
    pub(crate) fn ready(&self) -> Result<(), ControlFault>
        ensures value { result ≡ when_loaded (state_of B.Bench.meaning self.now) (Ok tt) }
    {
        if self.plan.controllers() == 0 {
            return Err(ControlFault::NotLoaded);
        }
        Ok(())
    }

    // Keeps the plan and begins at instant 0, in the everyday mode. The five fields that `new` sets too are no struct of their
    // own, since the state that the promises speak of has each by itself.
    pub fn load(&mut self, plan: &Plan) -> Result<(), ControlFault>
        ensures answer { result ≡ load_answer (state_of B.Bench.meaning self.old) plan.now.controllers }
        ensures loads { Loads B.Bench.meaning self.old self.new plan.now }
    {
        if self.plan.controllers() != 0 {
            return Err(ControlFault::Loaded);
        }
        let m = plan.controllers();
        if m == 0 {
            return Err(ControlFault::Counts);
        }
        if m != self.bench.count() {
            return Err(ControlFault::Counts);
        }
        if lowest_busy(&self.bench).is_some() {
            return Err(ControlFault::Busy);
        }
        self.plan = *plan;
        self.mode = Mode::Everyday;
        self.opening = 0;
        self.next = 0;
        self.jobs = Jobs::new();
        self.tallies = Tallies::new();
        Ok(())
    }

    // Handles the next instant and answers how many events it wrote.
    pub fn tick(&mut self, events: &mut Records<Event>) -> Result<usize, ControlFault>
        ensures answer { result ≡ counted (tick_answer (state_of B.Bench.meaning self.old) (length (lent events.old))) }
        ensures steps { Steps B.Bench.meaning B.Bench.fixed self.old self.new (Tick (length (lent events.old))) }
        ensures events { EventsAfter events.old (tick_answer (state_of B.Bench.meaning self.old) (length (lent events.old))) events.new }
    {
        self.ready()?;
        if self.next >= END_OF_TIME {
            return Err(ControlFault::Over);
        }
        if events.places() < 2 * usize::from(self.bench.count()) + 1 {
            return Err(ControlFault::Places);
        }
        let turn = self.decide();
        if let Some(controller) = self.blocked(&turn) {
            return Err(ControlFault::Bench(BenchFault::Busy { controller }));
        }
        events.clear();
        self.perform(&turn, events);
        self.next += 1;
        Ok(events.len())
    }

    // The job on the controller is done. Beside `strike` a second short body: one body with a closure would have to promise
    // what the closure counts.
    pub fn report(&mut self, controller: u8) -> Result<(), ControlFault>
        ensures answer { result ≡ end_answer (state_of B.Bench.meaning self.old) controller }
        ensures steps { Steps B.Bench.meaning B.Bench.fixed self.old self.new (Report controller) }
    {
        if let Some(row) = self.end(controller)? {
            self.tallies.change(row, with_report);
        }
        Ok(())
    }

    // The job on the controller is ended from outside, which counts as a cut.
    pub fn strike(&mut self, controller: u8) -> Result<(), ControlFault>
        ensures answer { result ≡ end_answer (state_of B.Bench.meaning self.old) controller }
        ensures steps { Steps B.Bench.meaning B.Bench.fixed self.old self.new (Strike controller) }
    {
        if let Some(row) = self.end(controller)? {
            self.tallies.change(row, with_cut);
        }
        Ok(())
    }

    // Ends the job on the controller, counted for no row yet, and answers its row.
    fn end(&mut self, controller: u8) -> Result<Option<u8>, ControlFault>
        ensures ends { Ends B.Bench.meaning B.Bench.fixed self.old self.new controller result }
    {
        self.ready()?;
        let held = self.row_on(controller);
        self.bench.end(controller)?;
        Ok(held)
    }

    // Back to the everyday mode, which opens at the next instant.
    pub fn return_to_everyday(&mut self) -> Result<(), ControlFault>
        ensures answer { result ≡ return_answer (state_of B.Bench.meaning self.old) }
        ensures steps { Steps B.Bench.meaning B.Bench.fixed self.old self.new Return }
    {
        self.ready()?;
        if self.mode == Mode::Everyday {
            return Err(ControlFault::Everyday);
        }
        if lowest_busy(&self.bench).is_some() {
            return Err(ControlFault::Busy);
        }
        self.mode = Mode::Everyday;
        self.opening = self.next;
        Ok(())
    }
}
