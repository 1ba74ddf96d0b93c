// Why something is sent back. A fault of the digits lies inside one of the frame, and that inside one of the sheet; lines and
// columns count from 1. Rows count from 0. The conversions are written out, since one that a derive makes has no contract.
ghost use Rattle.std.specs.Prelude.{◌≡◌};
ghost use Rattle.tasks.specs.declared.fault.FrameFault.TheVariants.{Digits};
ghost use Rattle.tasks.specs.declared.fault.SheetFault.TheVariants.{Frame, Places};
ghost use Rattle.tasks.specs.declared.fault.AppendixFault.TheVariants.{Plan, Sheet};
ghost use Rattle.tasks.specs.declared.fault.ControlFault.TheVariants.{Bench};
ghost use Rattle.tasks.specs.declared.fault.RunFault.TheVariants.{Control, Plan as Planning};

use records::Full;

// The digits of a line.
#[derive(Clone, Copy)]
pub enum DigitFault {
    // A byte that is no digit, at this column.
    Bad { line: usize, column: usize },
    // An odd count of digits; the column is the one after the last.
    Odd { line: usize, column: usize },
    // The last line has no end.
    Unended { line: usize },
}

// The frame on a line.
#[derive(Clone, Copy)]
pub enum FrameFault {
    Digits(DigitFault),
    // No kind, an unknown kind, or a length that the kind does not have.
    NoFrame { line: usize },
}

// The frames of a sheet.
#[derive(Clone, Copy)]
pub enum SheetFault {
    Frame(FrameFault),
    // Another frame was to come here, or none, or one is missing.
    OutOfPlace { line: usize },
    // Not 1 to 8 controllers, or more than 64 tasks.
    Counts { line: usize },
    // The caller lends fewer places than there are tasks.
    Places { line: usize },
    // A number of the task is outside its range.
    Range { line: usize },
    // An earlier task has the same id.
    IdUsed { line: usize },
    // The period is below the last task's.
    PeriodFalls { line: usize },
}

// Planning.
#[derive(Clone, Copy)]
pub enum PlanFault {
    // Not 1 to 8 controllers, or more than 64 tasks.
    Size,
    // The policy has another count of controllers.
    Counts,
    // The first row that holds a number outside its range.
    Range { row: usize },
    // The row that no controller takes.
    NoController { row: usize },
}

// A list of controllers from the shop.
#[derive(Clone, Copy)]
pub enum ListFault {
    // It is not each controller exactly once.
    NotEachOnce,
}

// A bench; each case holds the number that the caller gave.
#[derive(Clone, Copy)]
pub enum BenchFault {
    // There is no such controller.
    NoController { controller: u8 },
    // A bench takes rows 0 to 63.
    NoRow { row: u8 },
    // The controller has nothing to end.
    Idle { controller: u8 },
    // The controller has a row already.
    Busy { controller: u8 },
}

// A control.
#[derive(Clone, Copy)]
pub enum ControlFault {
    Bench(BenchFault),
    // No plan is loaded.
    NotLoaded,
    // A plan is loaded already.
    Loaded,
    // The plan has another count of controllers than the bench, or none.
    Counts,
    // A controller is busy.
    Busy,
    // The mode is everyday, so there is nothing to return from.
    Everyday,
    // The caller lends fewer places than a tick may write events.
    Places,
    // The last instant is past.
    Over,
    // The plan has no such row.
    NoRow { row: u8 },
}

// The way from tasks over their plan to a run of it.
#[derive(Clone, Copy)]
pub enum RunFault {
    Plan(PlanFault),
    Control(ControlFault),
}

// The way from a sheet to its appendix.
#[derive(Clone, Copy)]
pub enum AppendixFault {
    Sheet(SheetFault),
    Plan(PlanFault),
    // The caller lends fewer bytes than the appendix needs.
    Places,
}

impl From<DigitFault> for FrameFault {
    ghost from_gives = { λ fault r. r ≡ Digits fault };

    fn from(fault: DigitFault) -> FrameFault {
        FrameFault::Digits(fault)
    }
}

impl From<FrameFault> for SheetFault {
    ghost from_gives = { λ fault r. r ≡ Frame fault };

    fn from(fault: FrameFault) -> SheetFault {
        SheetFault::Frame(fault)
    }
}

// The opening, on line 1, says how many places the rows want.
impl From<Full> for SheetFault {
    ghost from_gives = { λ _ r. r ≡ Places 1 };

    fn from(_full: Full) -> SheetFault {
        SheetFault::Places { line: 1 }
    }
}

impl From<SheetFault> for AppendixFault {
    ghost from_gives = { λ fault r. r ≡ Sheet fault };

    fn from(fault: SheetFault) -> AppendixFault {
        AppendixFault::Sheet(fault)
    }
}

impl From<PlanFault> for AppendixFault {
    ghost from_gives = { λ fault r. r ≡ Plan fault };

    fn from(fault: PlanFault) -> AppendixFault {
        AppendixFault::Plan(fault)
    }
}

impl From<BenchFault> for ControlFault {
    ghost from_gives = { λ fault r. r ≡ Bench fault };

    fn from(fault: BenchFault) -> ControlFault {
        ControlFault::Bench(fault)
    }
}

impl From<PlanFault> for RunFault {
    ghost from_gives = { λ fault r. r ≡ Planning fault };

    fn from(fault: PlanFault) -> RunFault {
        RunFault::Plan(fault)
    }
}

impl From<ControlFault> for RunFault {
    ghost from_gives = { λ fault r. r ≡ Control fault };

    fn from(fault: ControlFault) -> RunFault {
        RunFault::Control(fault)
    }
}
