// The frames of a task sheet: a line's digits, decoded and taken apart.
#![tactic(auto)]

mod decode;
mod fields;
mod frame;
mod kind;

pub use fields::{opening_fields, task_fields};
pub use frame::{Frame, Line};
