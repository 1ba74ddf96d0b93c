ghost use Rattle.slots.specs.Slots.{Meet, NeverMeetRule, Occupies};
ghost use Rattle.std.specs.Prelude.{T, ◌↔◌};

use crate::divisor::gcd;
use crate::slot::Slot;

impl Slot {
    // Whether some instant is occupied by both.
    pub fn meets(&self, other: &Slot) -> bool
        ensures meet { T result ↔ Meet (Occupies self.now) (Occupies other.now) }
        ensures turned { T result ↔ Meet (Occupies other.now) (Occupies self.now) }
        ensures rule { NeverMeetRule }
    {
        let divisor = gcd(u32::from(self.period), u32::from(other.period));
        !self.leaves_room(other, divisor)
    }
}
