ghost use Rattle.benches.specs.Commands.{end_answer, end_on, start_answer, start_on};
ghost use Rattle.benches.specs.Registers.{Commanded, decoded, end_bytes, made, shown_by, start_bytes};
ghost use Rattle.std.specs.Prelude.{◌≡◌, ◌+◌, ◌<◌, ◌≤◌, Err, length, slice_index, slice_set};
ghost use Rattle.tasks.specs.declared.fault.BenchFault.TheVariants.{NoController};

use crate::bench::{may_end, may_start};
use crate::interlock::{Command, Interlock};
use tasks::BenchFault;

// The start of a row on a controller.
#[derive(Clone, Copy)]
pub(crate) struct Start {
    pub(crate) row: u8,
}

// The end of what a controller does.
#[derive(Clone, Copy)]
pub(crate) struct End;

// How many controllers the bytes have. They are at most eight, so the cast needs no `try_from`.
pub(crate) fn shown(bytes: &[u8]) -> u8
    ensures value { result ≡ length (shown_by bytes.now) }
{
    bytes.len().saturating_sub(1).min(8) as u8
}

// The row that a controller's byte shows, if it shows one.
pub(crate) fn decoded(byte: u8) -> Option<u8>
    ensures value { result ≡ decoded byte }
{
    byte.checked_sub(1)
}

// Does a command on a controller's byte: the byte becomes what the command makes of it.
fn on_controller<F: FnOnce(u8) -> Result<u8, BenchFault> + Drop>(
    lock: &mut Interlock<'_>,
    controller: u8,
    on_byte: F,
) -> Result<(), BenchFault>
    requires callable { F.IsAlwaysCallable on_byte }
    requires held { slice_index lock.old.bytes.now 0 ≡ 1 }
    ensures same { lock.new.bytes.ghost_name ≡ lock.old.bytes.ghost_name }
    ensures before { lock.new.before ≡ lock.old.before }
    ensures long { length lock.new.bytes.now ≡ length lock.old.bytes.now }
    ensures none { length (shown_by lock.old.bytes.now) ≤ controller → (result ≡ Err (NoController controller)) × (lock.new.bytes.now ≡ lock.old.bytes.now) }
    ensures some { controller < length (shown_by lock.old.bytes.now) → (made : _) × F.post on_byte (slice_index lock.old.bytes.now (controller + 1)) made × Commanded lock.old.bytes.now controller made result lock.new.bytes.now }
{
    if controller >= shown(lock.bytes()) {
        return Err(BenchFault::NoController { controller });
    }
    let place = usize::from(controller) + 1;
    let byte = on_byte(lock.bytes()[place])?;
    lock.put(place, byte);
    Ok(())
}

// What the start of a row makes of a controller's byte.
fn start_byte(byte: u8, controller: u8, row: u8) -> Result<u8, BenchFault>
    ensures value { result ≡ made (start_on (decoded byte) controller row) (row + 1) }
{
    may_start(decoded(byte), controller, row)?;
    Ok(row + 1)
}

// What an end makes of a controller's byte.
fn end_byte(byte: u8, controller: u8) -> Result<u8, BenchFault>
    ensures value { result ≡ made (end_on (decoded byte) controller) 0 }
{
    may_end(decoded(byte), controller)?;
    Ok(0)
}

impl Command for Start {
    ghost answer = { λ s bytes c. start_answer (shown_by bytes) c s.row };

    ghost after = { λ s bytes c. start_bytes bytes c s.row };

    fn carry_out(self, lock: &mut Interlock<'_>, controller: u8) -> Result<(), BenchFault> {
        let row = self.row;
        on_controller(lock, controller, |byte| start_byte(byte, controller, row))
    }
}

impl Command for End {
    ghost answer = { λ s bytes c. end_answer (shown_by bytes) c };

    ghost after = { λ s bytes c. end_bytes bytes c };

    fn carry_out(self, lock: &mut Interlock<'_>, controller: u8) -> Result<(), BenchFault> {
        on_controller(lock, controller, |byte| end_byte(byte, controller))
    }
}
