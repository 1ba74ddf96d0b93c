// A row is checked against the rows before it.
ghost use Rattle.std.specs.Prelude.{◌≡◌};
ghost use Rattle.sheet.specs.Reading.{used, last_period, row_checked};

use tasks::{SheetFault, Task};

// Whether some row has that id.
fn id_used(rows: &[Task], id: u8) -> bool
    ensures value { result ≡ used id rows.now }
{
    rows.iter().any(|row| row.id == id)
}

// The period of the last row, and 0 before the first.
fn last_period(rows: &[Task]) -> u16
    ensures value { result ≡ last_period rows.now }
{
    match rows {
        [.., last] => last.period,
        [] => 0,
    }
}

// A task after the rows before it: its numbers, its id, its period.
pub(crate) fn check_row(line: usize, rows: &[Task], task: Task) -> Result<Task, SheetFault>
    ensures value { result ≡ row_checked line rows.now task }
{
    if !task.in_range() {
        return Err(SheetFault::Range { line });
    }
    if id_used(rows, task.id) {
        return Err(SheetFault::IdUsed { line });
    }
    if task.period < last_period(rows) {
        return Err(SheetFault::PeriodFalls { line });
    }
    Ok(task)
}
