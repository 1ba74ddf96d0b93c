ghost use Rattle.tasks.specs.Counts.{Few, clamped};
ghost use Rattle.std.specs.Prelude.{◌≡◌};

// How many controllers there are: one to eight.
#[derive(Clone, Copy)]
pub(crate) struct Count {
    pub(crate) value: u8,
    ghost ok: { Few value },
}

impl Count {
    // 0 becomes 1, and more than 8 becomes 8.
    pub(crate) fn new(value: u8) -> Count
        ensures value { result.value ≡ clamped value }
    {
        Count {
            value: value.clamp(1, 8),
        }
    }
}
