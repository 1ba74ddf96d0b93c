// The whole way: plan, load, send.
ghost use Rattle.std.specs.Prelude.{◌≡◌, ◌↔◌};
ghost use Rattle.planner.specs.Outcomes.{Answer as PlanAnswer, Gives, PlanAfter, PolicyAfter};
ghost use Rattle.runs.specs.Whole.{WholeAfter, plan_part};

use crate::running::run;
use benches::Bench;
use control::Control;
use machine::{Call, Entry};
use planner::Plan;
use policies::Policy;
use tasks::{RunFault, Task};

// Plans the tasks for `m` controllers by the policy into the caller's plan, loads it on the control, and sends the calls.
// Answers how many were sent.
pub fn plan_and_run<P: Policy, B: Bench>(
    m: u8,
    tasks: &[Task],
    policy: &mut P,
    plan: &mut Plan,
    control: &mut Control<B>,
    calls: &[Call],
    journal: &mut [Entry],
) -> Result<usize, RunFault>
    ensures planned { (a : PlanAnswer) → (plan_part result ≡ a) ↔ Gives P.Policy.meaning m tasks.now policy.old a }
    ensures plan { PlanAfter P.Policy.meaning m tasks.now policy.old (plan_part result) plan.old plan.new }
    ensures policy { PolicyAfter P.Policy.meaning m tasks.now policy.old (plan_part result) plan.new policy.new }
    ensures ran { WholeAfter B.Bench.meaning B.Bench.fixed plan.new calls.now control.old control.new journal.old journal.new result }
{
    planner::plan(m, tasks, policy, plan)?;
    let count = run(control, plan, calls, journal)?;
    Ok(count)
}
