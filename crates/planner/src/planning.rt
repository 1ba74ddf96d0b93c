// Planning: the tasks are placed one after the other, in the order in which they are handed in.
ghost use Rattle.std.specs.Prelude.{◌≡◌, ◌≤◌, ◌↔◌, length, drop};
ghost use Rattle.planner.specs.Outcomes.{Answer, Gives, PlanAfter, PolicyAfter};
ghost use Rattle.planner.specs.Planning.{PlacesAll};
ghost use Rattle.planner.specs.Searching.{EachInRange, FirstOutIf};

use crate::plans::Plan;
use crate::row::Row;
use crate::search::Search;
use policies::Policy;
use tasks::{PlanFault, Task};

// The first task that is out of range.
fn first_out(tasks: &[Task]) -> Option<usize>
    ensures first { FirstOutIf tasks.now result }
{
    tasks.iter().position(|task| !task.in_range())
}

// Places the tasks one after the other, as long as a controller takes each. The rows placed stand in the table's first places.
fn place_all<P: Policy>(tasks: &[Task], policy: &mut P, table: &mut [Row]) -> Result<(), PlanFault>
    requires range { EachInRange tasks.now }
    requires short { length tasks.now ≤ 64 }
    requires whole { length table.old ≡ 64 }
    ensures places { PlacesAll P.Policy.meaning policy.old tasks.now result table.new policy.new }
    ensures rest { drop (length tasks.now) table.new ≡ drop (length tasks.now) table.old }
{
    // By index: each row is placed beside those before it in the same table.
    for (i, task) in tasks.iter().enumerate() {
        let row = Search::new(&table[..i], task)
            .choose(policy)
            .ok_or(PlanFault::NoController { row: i })?;
        policy.tell(task.level, row.controller);
        table[i] = row;
    }
    Ok(())
}

// Plans the tasks for `m` controllers. An accepted plan replaces the old one whole; a refusal leaves it as it was, and the
// policy told of the rows placed before it: therefore the plan is a place of the caller's, and no result.
pub fn plan<P: Policy>(
    m: u8,
    tasks: &[Task],
    policy: &mut P,
    plan: &mut Plan,
) -> Result<(), PlanFault>
    ensures answer { (a : Answer) → (result ≡ a) ↔ Gives P.Policy.meaning m tasks.now policy.old a }
    ensures plan { PlanAfter P.Policy.meaning m tasks.now policy.old result plan.old plan.new }
    ensures policy { PolicyAfter P.Policy.meaning m tasks.now policy.old result plan.new policy.new }
{
    if !(1..=8).contains(&m) || tasks.len() > 64 {
        return Err(PlanFault::Size);
    }
    if policy.count() != m {
        return Err(PlanFault::Counts);
    }
    if let Some(row) = first_out(tasks) {
        return Err(PlanFault::Range { row });
    }
    let mut table = [Row::default(); 64];
    place_all(tasks, policy, &mut table)?;
    *plan = Plan {
        controllers: m,
        count: tasks.len() as u8,
        table,
    };
    Ok(())
}
