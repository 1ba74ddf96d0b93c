// Periodic slots: when one is on, whether two ever meet, and how far on a slot must start so as to miss another.
#![tactic(auto)]

mod circle;
mod divisor;
mod jump;
mod meeting;
mod slot;

pub use divisor::gcd;
pub use slot::Slot;
