// What a control tells. A question changes nothing.
ghost use Rattle.std.specs.Prelude.{◌≡◌};
ghost use Rattle.machine.specs.Machine.{counts_answer, standing_answer, state_answer};
ghost use Rattle.control.specs.States.{state_of};

use crate::control::Control;
use benches::{Bench, busy_count, lowest_busy};
use machine::{Counts, Standing};
use tasks::ControlFault;

impl<B: Bench> Control<B> {
    // The bench under the control.
    pub fn bench(&self) -> &B
        ensures value { result.now ≡ self.now.bench }
    {
        &self.bench
    }

    // The row that the controller is busy with, or none where it is idle.
    pub fn controller(&self, controller: u8) -> Result<Option<u8>, ControlFault>
        ensures answer { result ≡ state_answer (state_of B.Bench.meaning self.now) controller }
    {
        self.ready()?;
        let row = self.bench.state(controller)?;
        Ok(row)
    }

    // How often the row started, and how its jobs ended.
    pub fn row(&self, row: u8) -> Result<Counts, ControlFault>
        ensures answer { result ≡ counts_answer (state_of B.Bench.meaning self.now) row }
    {
        self.ready()?;
        if usize::from(row) >= self.plan.rows().len() {
            return Err(ControlFault::NoRow { row });
        }
        Ok(self.tallies.get_or(row, Counts::default()))
    }

    // The mode, its opening, the next instant, and the busy controllers.
    pub fn standing(&self) -> Result<Standing, ControlFault>
        ensures answer { result ≡ standing_answer (state_of B.Bench.meaning self.now) }
    {
        self.ready()?;
        Ok(Standing {
            mode: self.mode,
            opening: self.opening,
            next: self.next,
            busy: busy_count(&self.bench),
            lowest: lowest_busy(&self.bench),
        })
    }
}
