ghost use Rattle.slots.specs.Ranges.{InRange};
ghost use Rattle.std.specs.Prelude.{◌≡◌, Some, None};

// A periodic slot: in each period it is on from `start` for `budget` instants.
#[derive(Clone, Copy)]
pub struct Slot {
    pub start: u16,
    pub budget: u16,
    pub period: u16,
    ghost ok: { InRange start budget period },
}

impl Slot {
    // The slot with these numbers, or none where they are out of range.
    pub fn new(start: u16, budget: u16, period: u16) -> Option<Self>
        ensures value { elim result [ Some s ↦ (s.start ≡ start) × (s.budget ≡ budget) × (s.period ≡ period) | None ↦ (InRange start budget period → ⊥) ] }
    {
        if budget < 1 || period > 60000 || period < budget || period - budget < start {
            return None;
        }
        Some(Slot {
            start,
            budget,
            period,
        })
    }
}
