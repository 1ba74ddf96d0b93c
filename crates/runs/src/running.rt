// A plan loaded, and a list of calls sent.
ghost use Rattle.std.specs.Prelude.{◌≡◌, length};
ghost use Rattle.machine.specs.Machine.{load_answer};
ghost use Rattle.control.specs.States.{state_of};
ghost use Rattle.runs.specs.Runs.{RunAfter, after_load, sent};

use crate::sending::send;
use benches::Bench;
use control::Control;
use machine::{Call, Entry};
use planner::Plan;
use tasks::ControlFault;

// Loads the plan and sends the calls in order, as many as the journal has places for. Each is written into the journal with its
// answer; the answer is how many were sent.
pub fn run<B: Bench>(
    control: &mut Control<B>,
    plan: &Plan,
    calls: &[Call],
    journal: &mut [Entry],
) -> Result<usize, ControlFault>
    ensures answer { result ≡ after_load (load_answer (state_of B.Bench.meaning control.old) plan.now.controllers) (length (sent calls.now journal.old)) }
    ensures ran { RunAfter B.Bench.meaning B.Bench.fixed plan.now calls.now control.old control.new journal.old journal.new result }
{
    control.load(plan)?;
    let count = calls.len().min(journal.len());
    // By index: tried with `journal.iter_mut().zip(calls)`, of which nothing is known that is written through it, and with
    // `calls[..count].iter().enumerate()`. Neither proof closes.
    for i in 0..count {
        let call = calls[i];
        journal[i] = Entry {
            call,
            answer: send(control, call),
        };
    }
    Ok(count)
}
