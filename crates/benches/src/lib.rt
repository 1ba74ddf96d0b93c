// Benches: a few controllers, each idle or busy with a row.
#![tactic(auto)]

mod bench;
mod busy;
mod interlock;
mod memory;
mod register;
mod register_bench;
mod slate;
mod slate_bench;

pub use bench::Bench;
pub use busy::{busy_count, busy_set, lowest_busy};
pub use register::RegisterBench;
pub use slate::Slate;
