// The machine that a control is: calls and answers, and the laws that every run of it keeps.
#![tactic(auto)]

mod entry;
mod event;
mod theorems;

pub use entry::{Answer, Call, Counts, Entry, Reply, Standing};
pub use event::{Event, Written};
pub use theorems::{laws_leave_nothing_open, runs_keep_the_laws};
