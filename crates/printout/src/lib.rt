// What is printed: the appendix of a plan, and the line of a refusal.
#![tactic(auto)]

mod appendix;
mod kind;
mod line;
mod refusal;

pub use appendix::{APPENDIX_BYTES, write_appendix};
pub use refusal::{numbered_line, refusal_line};
