ghost use Rattle.benches.specs.Slates.{all_idle, few_held, held_by};
ghost use Rattle.tasks.specs.Counts.{clamped};
ghost use Rattle.std.specs.Prelude.{◌≡◌};

use crate::bench::{Bench, may_end, may_start};
use crate::slate::Slate;
use tasks::BenchFault;

impl Slate {
    // All idle; 0 controllers become 1, and more than 8 become 8.
    pub fn new(count: u8) -> Slate
        ensures meaning { held_by result ≡ all_idle (clamped count) }
    {
        Slate {
            count: count.clamp(1, 8),
            table: [None; 8],
        }
    }
}

impl Bench for Slate {
    ghost meaning = { held_by };

    ghost few = { few_held };

    ghost Fixed = { Unit {0} };

    ghost fixed = { λ _. tt };

    fn count(&self) -> u8 {
        self.count
    }

    fn start(&mut self, controller: u8, row: u8) -> Result<(), BenchFault> {
        may_start(self.state(controller)?, controller, row)?;
        self.table[usize::from(controller)] = Some(row);
        Ok(())
    }

    fn end(&mut self, controller: u8) -> Result<(), BenchFault> {
        may_end(self.state(controller)?, controller)?;
        self.table[usize::from(controller)] = None;
        Ok(())
    }

    fn state(&self, controller: u8) -> Result<Option<u8>, BenchFault> {
        let table = &self.table[..usize::from(self.count)];
        table
            .get(usize::from(controller))
            .copied()
            .ok_or(BenchFault::NoController { controller })
    }
}
