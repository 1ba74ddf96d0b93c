// The control: it runs a plan on any bench, tick by tick.
#![tactic(auto)]

mod carry;
mod commands;
mod control;
mod decide;
mod jobs;
mod questions;
mod table;
mod tallies;
mod turn;

pub use control::Control;
