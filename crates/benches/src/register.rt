ghost use Rattle.std.specs.Prelude.{◌≡◌, ◌<◌, Err, length};
ghost use Rattle.tasks.specs.declared.fault.BenchFault.TheVariants.{NoController};

use crate::interlock::{Command, locked};
use tasks::BenchFault;

// A bench over the caller's bytes: byte c + 1 is 0 while controller c is idle, and v while it is busy with row v - 1. No other file
// but the interlock's can reach the bytes, and a command gets them only by an interlock: so it does its work while byte 0 holds 1.
#[derive(Drop)]
pub struct RegisterBench<'a> {
    bytes: &'a mut [u8],
}

impl<'a> RegisterBench<'a> {
    pub fn new(bytes: &'a mut [u8]) -> RegisterBench<'a>
        ensures same { result.bytes.ghost_name ≡ bytes.entry.ghost_name }
        ensures bytes { result.bytes.now ≡ bytes.old }
    {
        RegisterBench { bytes }
    }

    pub(crate) fn bytes(&self) -> &[u8]
        ensures value { result.now ≡ self.now.bytes.now }
    {
        self.bytes
    }

    // Lets the command work on the controller.
    pub(crate) fn command<C: Command>(
        &mut self,
        controller: u8,
        command: C,
    ) -> Result<(), BenchFault>
        ensures same { self.new.bytes.ghost_name ≡ self.old.bytes.ghost_name }
        ensures none { length self.old.bytes.now ≡ 0 → (result ≡ Err (NoController controller)) × (self.new.bytes.now ≡ self.old.bytes.now) }
        ensures some { 0 < length self.old.bytes.now → (result ≡ C.answer command self.old.bytes.now controller) × (self.new.bytes.now ≡ C.after command self.old.bytes.now controller) }
    {
        locked(self.bytes, controller, command)
    }
}
