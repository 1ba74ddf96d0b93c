// Plans task sheets and compares each answer with what a search over every instant finds.
#![tactic(auto)]

mod compare;
mod draws;
mod report;
mod search;
mod sheets;
mod timetable;

use compare::{Agreed, agree};
use draws::Draws;
use report::{Rows, Short, Tally};
use std::fs;

// The sheets that lie where the program runs: the sample, and published sets of four, six and three tasks.
const NAMED: [&str; 4] = ["sample", "four_tasks", "six_tasks", "three_tasks"];

const SEED: u64 = 2026;

const SMALL_SHEETS: usize = 120;

// The starts that are printed, here and below, are the search's: just before they were found equal to the appendix's.
fn show_named(rt: &HostRuntime, name: &str) -> anyhow::Result<Agreed> {
    println!(rt; "{name}")?;
    let path = format!(in rt.alloc(); "{name}.sheet")?;
    let text = fs::read_to_string(rt, path.as_str())?;
    let agreed = agree(rt, text.as_str())?;
    println!(rt; "{}agree", Rows(&agreed))?;
    Ok(agreed)
}

fn show_small(rt: &HostRuntime, number: usize, draws: &mut Draws) -> anyhow::Result<Agreed> {
    let sheet = draws.sheet(rt.alloc())?;
    let text = format!(in rt.alloc(); "{sheet}")?;
    let agreed = agree(rt, text.as_str())?;
    println!(rt; "{number}: {}agree", Short(&agreed))?;
    Ok(agreed)
}

fn main(rt: HostRuntime) -> anyhow::Result<()> {
    let mut all = Vec::new(rt.alloc());
    for name in NAMED {
        all.push(show_named(&rt, name)?)?;
    }
    let mut draws = Draws::new(SEED);
    for number in 1..=SMALL_SHEETS {
        all.push(show_small(&rt, number, &mut draws)?)?;
    }
    println!(rt; "{}", Tally(&all))?;
    Ok(())
}
