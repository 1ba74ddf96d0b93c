ghost use Rattle.std.specs.Prelude.{◌≡◌, ◌+◌, ◌<◌, ◌≤◌, T, ◌↔◌};
ghost use Rattle.slots.specs.Jumps.{past_end};
ghost use Rattle.slots.specs.Slots.{Room, gap};

use crate::slot::Slot;

// How far `to` lies behind `from`, round a circle of so many instants.
fn gap_between(from: u16, to: u16, circle: u32) -> u32
    requires positive { 1 ≤ circle }
    ensures value { result ≡ gap from to circle }
    ensures within { result < circle }
{
    let circle = u64::from(circle);
    let back = circle - u64::from(from) % circle;
    ((u64::from(to) + back) % circle) as u32
}

impl Slot {
    // Whether the circle has room for each slot before the other comes.
    pub(crate) fn leaves_room(&self, other: &Slot, circle: u32) -> bool
        requires positive { 1 ≤ circle }
        ensures room { T result ↔ Room self.now other.now circle }
    {
        let gap = gap_between(self.start, other.start, circle);
        u32::from(self.budget) <= gap && u32::from(other.budget) <= circle - gap
    }

    // How far on the slot must start so as to begin past the end of `other`, if it meets it, where the circle can hold both.
    pub(crate) fn past_end(&self, other: &Slot, circle: u32) -> u32
        requires room { self.now.budget + other.now.budget ≤ circle }
        ensures value { result ≡ past_end self.now other.now circle }
    {
        let gap = gap_between(self.start, other.start, circle);
        let budget = u32::from(other.budget);
        if gap < u32::from(self.budget) {
            gap + budget
        } else {
            budget.saturating_sub(circle - gap)
        }
    }
}
