ghost use Rattle.benches.specs.Commands.{OthersKept, end_after, end_answer, start_after, start_answer};
ghost use Rattle.benches.specs.Registers.{Around, around, end_bytes, few_shown, shown_by, start_bytes};
ghost use Rattle.std.specs.Prelude.{◌≡◌};

use crate::bench::Bench;
use crate::memory::{End, Start, decoded, shown};
use crate::register::RegisterBench;
use tasks::BenchFault;

// The clauses of an impl's method replace the trait's: `start` and `end` say the trait's again, and then what the bytes are.
impl<'a> Bench for RegisterBench<'a> {
    ghost meaning = { λ b. shown_by b.bytes.now };

    ghost few = { λ b. few_shown b.bytes.now };

    ghost Fixed = { Around };

    ghost fixed = { λ b. around b.bytes.ghost_name b.bytes.now };

    fn count(&self) -> u8 {
        shown(self.bytes())
    }

    fn start(&mut self, controller: u8, row: u8) -> Result<(), BenchFault>
        ensures answer { result ≡ start_answer (shown_by self.old.bytes.now) controller row }
        ensures after { shown_by self.new.bytes.now ≡ start_after (shown_by self.old.bytes.now) controller row }
        ensures others { OthersKept (shown_by self.old.bytes.now) (shown_by self.new.bytes.now) controller }
        ensures fixed { around self.new.bytes.ghost_name self.new.bytes.now ≡ around self.old.bytes.ghost_name self.old.bytes.now }
        ensures same { self.new.bytes.ghost_name ≡ self.old.bytes.ghost_name }
        ensures bytes { self.new.bytes.now ≡ start_bytes self.old.bytes.now controller row }
    {
        self.command(controller, Start { row })
    }

    fn end(&mut self, controller: u8) -> Result<(), BenchFault>
        ensures answer { result ≡ end_answer (shown_by self.old.bytes.now) controller }
        ensures after { shown_by self.new.bytes.now ≡ end_after (shown_by self.old.bytes.now) controller }
        ensures others { OthersKept (shown_by self.old.bytes.now) (shown_by self.new.bytes.now) controller }
        ensures fixed { around self.new.bytes.ghost_name self.new.bytes.now ≡ around self.old.bytes.ghost_name self.old.bytes.now }
        ensures same { self.new.bytes.ghost_name ≡ self.old.bytes.ghost_name }
        ensures bytes { self.new.bytes.now ≡ end_bytes self.old.bytes.now controller }
    {
        self.command(controller, End)
    }

    fn state(&self, controller: u8) -> Result<Option<u8>, BenchFault> {
        if controller >= shown(self.bytes()) {
            return Err(BenchFault::NoController { controller });
        }
        let byte = self.bytes()[usize::from(controller) + 1];
        Ok(decoded(byte))
    }
}
