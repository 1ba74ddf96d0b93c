// A caller of the register bench.
ghost use Rattle.benches.specs.Commands.{start_answer};
ghost use Rattle.benches.specs.Registers.{shown_by, start_bytes};
ghost use Rattle.std.specs.Prelude.{◌≡◌};

use benches::{Bench, RegisterBench};
use tasks::BenchFault;

// Starts a row on a bench over these bytes. When the bench is gone, the one who lent them knows what each of them is.
pub fn start_on_lent_bytes(bytes: &mut [u8], controller: u8, row: u8) -> Result<(), BenchFault>
    ensures answer { result ≡ start_answer (shown_by bytes.old) controller row }
    ensures after { bytes.new ≡ start_bytes bytes.old controller row }
{
    let mut bench = RegisterBench::new(bytes);
    bench.start(controller, row)
}
