use crate::event::Written;
use tasks::{Mode, Refusal};

// What a control is asked to do or to tell. A tick is called with so many places for its events.
#[derive(Clone, Copy)]
pub enum Call {
    Tick { places: u8 },
    Report { controller: u8 },
    Strike { controller: u8 },
    Return,
    Controller { controller: u8 },
    Row { row: u8 },
    Status,
}

// How often a row started, and how its jobs ended: by a report, or by a cut or a strike.
#[derive(Clone, Copy, Default)]
pub struct Counts {
    pub starts: u64,
    pub reports: u64,
    pub cuts: u64,
}

// The mode, the instant at which it opened, the next instant, how many controllers are busy, and the lowest of them.
#[derive(Clone, Copy)]
pub struct Standing {
    pub mode: Mode,
    pub opening: u64,
    pub next: u64,
    pub busy: u8,
    pub lowest: Option<u8>,
}

// What is told of an accepted call.
#[derive(Clone, Copy)]
pub enum Reply {
    // The events of a tick.
    Ticked(Written),
    // A report, a strike or a return is carried out.
    Done,
    // The row that the controller is busy with, if it is.
    Shown(Option<u8>),
    Counted(Counts),
    Stood(Standing),
}

// What came of a call.
pub type Answer = Result<Reply, Refusal>;

// A call with its answer.
#[derive(Clone, Copy)]
pub struct Entry {
    pub call: Call,
    pub answer: Answer,
}
