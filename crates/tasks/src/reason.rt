// The reason and the layer of a refusal, and the number that is reported of each.
ghost use Rattle.std.specs.Prelude.{◌≡◌};
ghost use Rattle.tasks.specs.Refusals.{layer_number, reason_number};

// Why something is sent back.
#[derive(Clone, Copy, PartialEq, Eq)]
pub enum Reason {
    // A byte that is no digit, or an odd count of digits.
    BadDigits,
    // The last line has no end.
    Unended,
    // No kind, an unknown kind, or a length that the kind does not have.
    NoFrame,
    // A frame out of place, missing, beyond the number of tasks, or after the close.
    OutOfPlace,
    // Not 1 to 8 controllers, or more than 64 tasks.
    Size,
    // A number of a task is outside its range.
    Range,
    // An earlier task has the same id.
    IdUsed,
    // The period is below the last task's.
    PeriodFalls,
    // Counts of controllers differ, or are 0.
    Counts,
    // No controller takes the row.
    NoController,
    // A controller beyond the count, or a row beyond the bench or the plan.
    Beyond,
    // The controller has nothing to end.
    Idle,
    // The mode is everyday, so there is nothing to return from.
    Everyday,
    // Some controller is busy.
    SomeBusy,
    // The caller lends fewer places than are needed.
    Places,
    // The last instant is past.
    Over,
    // The controller has a row already.
    Busy,
    // The list is not each controller exactly once.
    NotEachOnce,
    // No plan is loaded.
    NotLoaded,
    // A plan is loaded already.
    Loaded,
    // A number that none of these has: no call here gives it, but a refusal of a caller's own may.
    Other(u8),
}

impl Reason {
    // The number that is reported.
    pub fn number(self) -> u8
        ensures value { result ≡ reason_number self }
    {
        match self {
            Reason::BadDigits => 1,
            Reason::Unended => 2,
            Reason::NoFrame => 3,
            Reason::OutOfPlace => 4,
            Reason::Size => 5,
            Reason::Range => 6,
            Reason::IdUsed => 7,
            Reason::PeriodFalls => 8,
            Reason::Counts => 9,
            Reason::NoController => 10,
            Reason::Beyond => 11,
            Reason::Idle => 12,
            Reason::Everyday => 13,
            Reason::SomeBusy => 14,
            Reason::Places => 15,
            Reason::Over => 16,
            Reason::Busy => 17,
            Reason::NotEachOnce => 18,
            Reason::NotLoaded => 19,
            Reason::Loaded => 20,
            Reason::Other(number) => number,
        }
    }
}

// The layer that found a fault.
#[derive(Clone, Copy, PartialEq, Eq)]
pub enum Layer {
    Digits,
    Frames,
    Sheet,
    Planning,
    Control,
    Bench,
    // A number that none of these has, as above.
    Other(u8),
}

impl Layer {
    // The number that is reported.
    pub fn number(self) -> u8
        ensures value { result ≡ layer_number self }
    {
        match self {
            Layer::Digits => 1,
            Layer::Frames => 2,
            Layer::Sheet => 3,
            Layer::Planning => 4,
            Layer::Control => 5,
            Layer::Bench => 6,
            Layer::Other(number) => number,
        }
    }
}
