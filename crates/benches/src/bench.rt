ghost use Rattle.std.specs.Prelude.{◌≡◌, ◌≤◌, length};
ghost use Rattle.benches.specs.Commands.{OthersKept, States, end_after, end_answer, end_on, start_after, start_answer, start_on, state_answer};

use tasks::BenchFault;

// A bench takes rows 0 to 63.
const HIGHEST_ROW: u8 = 63;

// Whether the row may start on a controller that is busy with this row, or idle.
pub(crate) fn may_start(held: Option<u8>, controller: u8, row: u8) -> Result<(), BenchFault>
    ensures value { result ≡ start_on held controller row }
{
    if row > HIGHEST_ROW {
        return Err(BenchFault::NoRow { row });
    }
    if held.is_some() {
        return Err(BenchFault::Busy { controller });
    }
    Ok(())
}

// Whether a controller that is busy with this row, or idle, may be told to end.
pub(crate) fn may_end(held: Option<u8>, controller: u8) -> Result<(), BenchFault>
    ensures value { result ≡ end_on held controller }
{
    if held.is_none() {
        return Err(BenchFault::Idle { controller });
    }
    Ok(())
}

// At most eight controllers, numbered from 0.
pub trait Bench {
    // What each controller does.
    ghost meaning: { Self → States };

    // Each bench proves that it has at most eight controllers.
    ghost few: { (b : Self) → length (meaning b) ≤ 8 };

    // What no command changes.
    ghost Fixed: { Type 0 };

    ghost fixed: { Self → Fixed };

    // How many controllers there are.
    fn count(&self) -> u8
        ensures value { result ≡ length (meaning self.now) };

    // Makes an idle controller busy with a row from 0 to 63.
    fn start(&mut self, controller: u8, row: u8) -> Result<(), BenchFault>
        ensures answer { result ≡ start_answer (meaning self.old) controller row }
        ensures after { meaning self.new ≡ start_after (meaning self.old) controller row }
        ensures others { OthersKept (meaning self.old) (meaning self.new) controller }
        ensures fixed { fixed self.new ≡ fixed self.old };

    // Makes a busy controller idle.
    fn end(&mut self, controller: u8) -> Result<(), BenchFault>
        ensures answer { result ≡ end_answer (meaning self.old) controller }
        ensures after { meaning self.new ≡ end_after (meaning self.old) controller }
        ensures others { OthersKept (meaning self.old) (meaning self.new) controller }
        ensures fixed { fixed self.new ≡ fixed self.old };

    // The row that a controller is busy with, or none where it is idle.
    fn state(&self, controller: u8) -> Result<Option<u8>, BenchFault>
        ensures answer { result ≡ state_answer (meaning self.now) controller };
}
