// From the bytes of a task sheet to the bytes of its appendix: read, plan with the controllers tried from 0 upward, write.
#![tactic(auto)]

ghost use Rattle.std.specs.Prelude.{◌≤◌, length, IfOk};
ghost use Rattle.quotation.specs.Quotations.{Only, Quoted};

use planner::{Plan, plan};
use policies::Front;
use printout::write_appendix;
use records::Records;
use sheet::read_sheet;
use tasks::{AppendixFault, Task};

mod export;

pub use export::jostagalley_appendix;

// Writes the appendix of the sheet at the beginning of the bytes and answers its length; a refusal writes nothing.
pub fn appendix_of(sheet: &[u8], out: &mut [u8]) -> Result<usize, AppendixFault>
    ensures quoted { Quoted sheet.now out.old result out.new }
    ensures only { Only sheet.now out.old result out.new }
    ensures bound { IfOk result (λ n. (n ≤ 970) × (n ≤ length out.old)) }
{
    read_plan_write(sheet, out)
}

fn read_plan_write(sheet: &[u8], out: &mut [u8]) -> Result<usize, AppendixFault>
    ensures quoted { Quoted sheet.now out.old result out.new }
    ensures small { IfOk result (λ n. n ≤ 970) }
{
    let mut places = [Task::default(); 64];
    let mut tasks = Records::new(&mut places);
    let m = read_sheet(sheet, &mut tasks)?;
    let mut made = Plan::new();
    plan(m, tasks.as_slice(), &mut Front::new(m), &mut made)?;
    write_appendix(&made, out)
}
