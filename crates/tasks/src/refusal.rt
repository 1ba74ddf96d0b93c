// What is reported of a fault. Which reason, layer and place a fault has is defined once, in specs/Refusals.
ghost use Rattle.std.specs.Prelude.{◌≡◌};
ghost use Rattle.tasks.specs.Refusals.{appendix_refusal, bench_refusal, control_refusal, digit_refusal, frame_refusal, layer_number, list_refusal, plan_refusal, reason_number, refusal, run_refusal, sheet_refusal};

use crate::fault::{
    AppendixFault, BenchFault, ControlFault, DigitFault, FrameFault, ListFault, PlanFault,
    RunFault, SheetFault,
};
use crate::reason::{Layer, Reason};

// A refusal: its reason, the layer that found the fault, the place, and the column where a digit fault has one.
#[derive(Clone, Copy)]
pub struct Refusal {
    pub reason: Reason,
    pub layer: Layer,
    pub place: usize,
    pub column: Option<usize>,
}

impl Refusal {
    // The number that is reported for the reason.
    pub fn number(&self) -> u8
        ensures value { result ≡ reason_number self.now.reason }
    {
        self.reason.number()
    }

    // The number that is reported for the layer.
    pub fn layer_number(&self) -> u8
        ensures value { result ≡ layer_number self.now.layer }
    {
        self.layer.number()
    }
}

// A refusal with no column.
fn refuse(reason: Reason, layer: Layer, place: usize) -> Refusal
    ensures value { result ≡ refusal reason layer place }
{
    Refusal {
        reason,
        layer,
        place,
        column: None,
    }
}

impl From<DigitFault> for Refusal {
    ghost from_gives = { λ fault r. r ≡ digit_refusal fault };

    fn from(fault: DigitFault) -> Refusal {
        match fault {
            DigitFault::Bad { line, column } | DigitFault::Odd { line, column } => Refusal {
                reason: Reason::BadDigits,
                layer: Layer::Digits,
                place: line,
                column: Some(column),
            },
            DigitFault::Unended { line } => refuse(Reason::Unended, Layer::Digits, line),
        }
    }
}

impl From<FrameFault> for Refusal {
    ghost from_gives = { λ fault r. r ≡ frame_refusal fault };

    fn from(fault: FrameFault) -> Refusal {
        match fault {
            FrameFault::Digits(fault) => Refusal::from(fault),
            FrameFault::NoFrame { line } => refuse(Reason::NoFrame, Layer::Frames, line),
        }
    }
}

impl From<SheetFault> for Refusal {
    ghost from_gives = { λ fault r. r ≡ sheet_refusal fault };

    fn from(fault: SheetFault) -> Refusal {
        match fault {
            SheetFault::Frame(fault) => Refusal::from(fault),
            SheetFault::OutOfPlace { line } => refuse(Reason::OutOfPlace, Layer::Sheet, line),
            SheetFault::Counts { line } => refuse(Reason::Size, Layer::Sheet, line),
            SheetFault::Places { line } => refuse(Reason::Places, Layer::Sheet, line),
            SheetFault::Range { line } => refuse(Reason::Range, Layer::Sheet, line),
            SheetFault::IdUsed { line } => refuse(Reason::IdUsed, Layer::Sheet, line),
            SheetFault::PeriodFalls { line } => refuse(Reason::PeriodFalls, Layer::Sheet, line),
        }
    }
}

impl From<PlanFault> for Refusal {
    ghost from_gives = { λ fault r. r ≡ plan_refusal fault };

    fn from(fault: PlanFault) -> Refusal {
        match fault {
            PlanFault::Size => refuse(Reason::Size, Layer::Planning, 0),
            PlanFault::Counts => refuse(Reason::Counts, Layer::Planning, 0),
            PlanFault::Range { row } => refuse(Reason::Range, Layer::Planning, row),
            PlanFault::NoController { row } => refuse(Reason::NoController, Layer::Planning, row),
        }
    }
}

impl From<ListFault> for Refusal {
    ghost from_gives = { λ fault r. r ≡ list_refusal fault };

    fn from(fault: ListFault) -> Refusal {
        match fault {
            ListFault::NotEachOnce => refuse(Reason::NotEachOnce, Layer::Planning, 0),
        }
    }
}

impl From<AppendixFault> for Refusal {
    ghost from_gives = { λ fault r. r ≡ appendix_refusal fault };

    fn from(fault: AppendixFault) -> Refusal {
        match fault {
            AppendixFault::Sheet(fault) => Refusal::from(fault),
            AppendixFault::Plan(fault) => Refusal::from(fault),
            AppendixFault::Places => refuse(Reason::Places, Layer::Planning, 0),
        }
    }
}

impl From<BenchFault> for Refusal {
    ghost from_gives = { λ fault r. r ≡ bench_refusal fault };

    fn from(fault: BenchFault) -> Refusal {
        match fault {
            BenchFault::NoController { controller } => {
                refuse(Reason::Beyond, Layer::Bench, usize::from(controller))
            }
            BenchFault::NoRow { row } => refuse(Reason::Beyond, Layer::Bench, usize::from(row)),
            BenchFault::Idle { controller } => {
                refuse(Reason::Idle, Layer::Bench, usize::from(controller))
            }
            BenchFault::Busy { controller } => {
                refuse(Reason::Busy, Layer::Bench, usize::from(controller))
            }
        }
    }
}

impl From<ControlFault> for Refusal {
    ghost from_gives = { λ fault r. r ≡ control_refusal fault };

    fn from(fault: ControlFault) -> Refusal {
        match fault {
            ControlFault::Bench(fault) => Refusal::from(fault),
            ControlFault::Counts => refuse(Reason::Counts, Layer::Control, 0),
            ControlFault::NoRow { row } => {
                refuse(Reason::Beyond, Layer::Control, usize::from(row))
            }
            ControlFault::Everyday => refuse(Reason::Everyday, Layer::Control, 0),
            ControlFault::Busy => refuse(Reason::SomeBusy, Layer::Control, 0),
            ControlFault::Places => refuse(Reason::Places, Layer::Control, 0),
            ControlFault::Over => refuse(Reason::Over, Layer::Control, 0),
            ControlFault::NotLoaded => refuse(Reason::NotLoaded, Layer::Control, 0),
            ControlFault::Loaded => refuse(Reason::Loaded, Layer::Control, 0),
        }
    }
}

impl From<RunFault> for Refusal {
    ghost from_gives = { λ fault r. r ≡ run_refusal fault };

    fn from(fault: RunFault) -> Refusal {
        match fault {
            RunFault::Plan(fault) => Refusal::from(fault),
            RunFault::Control(fault) => Refusal::from(fault),
        }
    }
}
