// Tasks, the modes of a bench, and why something is sent back.
#![tactic(auto)]

mod fault;
mod mode;
mod reason;
mod refusal;
mod task;

pub use fault::{
    AppendixFault, BenchFault, ControlFault, DigitFault, FrameFault, ListFault, PlanFault,
    RunFault, SheetFault,
};
pub use mode::{Mode, PerMode};
pub use reason::{Layer, Reason};
pub use refusal::Refusal;
pub use task::{BLANK_TASK, Task};
