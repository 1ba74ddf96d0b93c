// Plans the task sheet in a file and runs the plan for many ticks: `ticking SHEET [WAY TICKS]..`. For each way, which is `quiet`
// or `reported`, it prints in a line what came of so many ticks. speed/run times it.
#![tactic(auto)]

mod course;
mod options;
mod sums;

use course::Course;
use options::Options;
use planner::{Plan, plan};
use policies::Front;
use printout::refusal_line;
use records::Records;
use sheet::read_sheet;
use std::fs;
use tasks::{AppendixFault, Task};

// The plan of the sheet, with the controllers tried from 0 upward.
fn plan_of(sheet: &[u8]) -> Result<Plan, AppendixFault> {
    let mut places = [Task::default(); 64];
    let mut tasks = Records::new(&mut places);
    let m = read_sheet(sheet, &mut tasks)?;
    let mut made = Plan::new();
    plan(m, tasks.as_slice(), &mut Front::new(m), &mut made)?;
    Ok(made)
}

// Runs the plan the one way, and prints what came of it.
fn show(rt: &HostRuntime, plan: &Plan, course: Course) -> anyhow::Result<()> {
    match course.run(plan) {
        Ok(outcome) => println!(rt; "{course}: {outcome}")?,
        Err(fault) => rt.write_all(&refusal_line(&fault.into()))?,
    }
    Ok(())
}

fn main(rt: HostRuntime) -> anyhow::Result<()> {
    let options = Options::read(&rt)?;
    let sheet = fs::read(&rt, options.sheet.as_str())?;
    match plan_of(&sheet) {
        Ok(plan) => {
            for course in &options.courses {
                show(&rt, &plan, *course)?;
            }
        }
        Err(fault) => rt.write_all(&refusal_line(&fault.into()))?,
    }
    Ok(())
}
