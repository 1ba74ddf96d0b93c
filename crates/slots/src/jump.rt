ghost use Rattle.std.specs.Int.{IsGcd};
ghost use Rattle.slots.specs.Jumps.{Next, hop_over};
ghost use Rattle.std.specs.Prelude.{◌≡◌};

use crate::slot::Slot;

impl Slot {
    // How far on from its start the slot must start so as not to meet `other`: 0 where it does not meet it from here, none
    // where it meets it from every start. The divisor is that of the two periods: a caller finds it once, and tries many starts.
    pub fn hop(&self, other: &Slot, divisor: u32) -> Option<u32>
        ensures value { result ≡ hop_over self.now other.now divisor }
        ensures next { IsGcd self.now.period other.now.period divisor → Next self.now other.now result }
    {
        let both = u32::from(self.budget) + u32::from(other.budget);
        (both <= divisor).then(|| self.past_end(other, divisor))
    }
}
