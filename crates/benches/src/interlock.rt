ghost use Rattle.std.specs.Prelude.{◌≡◌, ℕ, ◌<◌, List, Err, Result, length, slice_index, slice_set};
ghost use Rattle.tasks.specs.declared.fault.BenchFault.{BenchFault as Fault};
ghost use Rattle.tasks.specs.declared.fault.BenchFault.TheVariants.{NoController};

use tasks::BenchFault;

// While one lives byte 0 holds 1; as it goes byte 0 is put back.
pub(crate) struct Interlock<'a> {
    bytes: &'a mut [u8],
    before: u8,
}

// A command to a controller, which works on the bytes while an interlock holds.
pub(crate) trait Command: Copy {
    // What it answers, by the bytes as they were before the interlock.
    ghost answer: { Self → List ℕ → ℕ → Result (Unit {0}) Fault };

    // The bytes that are left when the interlock is gone.
    ghost after: { Self → List ℕ → ℕ → List ℕ };

    fn carry_out(self, lock: &mut Interlock<'_>, controller: u8) -> Result<(), BenchFault>
        requires held { slice_index lock.old.bytes.now 0 ≡ 1 }
        ensures same { lock.new.bytes.ghost_name ≡ lock.old.bytes.ghost_name }
        ensures before { lock.new.before ≡ lock.old.before }
        ensures long { length lock.new.bytes.now ≡ length lock.old.bytes.now }
        ensures answer { result ≡ answer self (slice_set lock.old.bytes.now 0 lock.old.before) controller }
        ensures after { slice_set lock.new.bytes.now 0 lock.new.before ≡ after self (slice_set lock.old.bytes.now 0 lock.old.before) controller };
}

// Carries the command out while an interlock holds. Where there is no byte there is no interlock, and no controller either.
pub(crate) fn locked<C: Command>(
    bytes: &mut [u8],
    controller: u8,
    command: C,
) -> Result<(), BenchFault>
    ensures none { length bytes.old ≡ 0 → (result ≡ Err (NoController controller)) × (bytes.new ≡ bytes.old) }
    ensures some { 0 < length bytes.old → (result ≡ C.answer command bytes.old controller) × (bytes.new ≡ C.after command bytes.old controller) }
{
    if bytes.is_empty() {
        return Err(BenchFault::NoController { controller });
    }
    let mut lock = Interlock::engage(bytes);
    command.carry_out(&mut lock, controller)
}

impl Drop for Interlock<'_> {
    fn drop(self)
        requires { 0 < length self.bytes.now }
        ensures { self.exit.0.now ≡ slice_set self.entry.bytes.now 0 self.entry.before }
    {
        let Interlock { bytes, before } = self;
        bytes[0] = before;
    }
}

impl<'a> Interlock<'a> {
    fn engage(bytes: &'a mut [u8]) -> Interlock<'a>
        requires { 0 < length bytes.old }
        ensures same { result.bytes.ghost_name ≡ bytes.entry.ghost_name }
        ensures before { result.before ≡ slice_index bytes.old 0 }
        ensures held { result.bytes.now ≡ slice_set bytes.old 0 1 }
    {
        let before = bytes[0];
        bytes[0] = 1;
        Interlock { bytes, before }
    }

    pub(crate) fn bytes(&self) -> &[u8]
        ensures value { result.now ≡ self.now.bytes.now }
    {
        self.bytes
    }

    // The memory takes a command only while byte 0 holds 1.
    pub(crate) fn put(&mut self, place: usize, value: u8)
        requires { (slice_index self.old.bytes.now 0 ≡ 1) × ((0 < place) × (place < length self.old.bytes.now)) }
        ensures same { self.new.bytes.ghost_name ≡ self.old.bytes.ghost_name }
        ensures before { self.new.before ≡ self.old.before }
        ensures after { self.new.bytes.now ≡ slice_set self.old.bytes.now place value }
    {
        self.bytes[place] = value;
    }
}
