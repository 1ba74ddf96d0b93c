// Plans a task sheet, runs the plan on a bench, and sends it the calls of standard input, one a line:
// `replay SHEET [--policy front|round|ends] [--bench slate|register]`.
#![tactic(auto)]

mod answer;
mod journal;
mod options;
mod play;
mod script;

use options::Options;
use play::Job;
use printout::refusal_line;
use records::Records;
use sheet::read_sheet;
use std::fs;
use tasks::Task;

fn main(rt: HostRuntime) -> anyhow::Result<()> {
    let options = Options::read(&rt)?;
    let sheet = fs::read(&rt, options.sheet.as_str())?;
    let calls = script::read(&rt)?;
    let mut places = [Task::default(); 64];
    let mut tasks = Records::new(&mut places);
    match read_sheet(&sheet, &mut tasks) {
        Ok(controllers) => {
            let job = Job {
                controllers,
                tasks: tasks.as_slice(),
                calls: &calls,
                policy: options.policy,
                bench: options.bench,
            };
            job.play(&rt)?;
        }
        Err(fault) => rt.write_all(&refusal_line(&fault.into()))?,
    }
    Ok(())
}
