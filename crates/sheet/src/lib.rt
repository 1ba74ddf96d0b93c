// Task sheets: the reader that walks a sheet, and the call that reads one into a list of tasks.
#![tactic(auto)]

ghost use Rattle.std.specs.Prelude.{length};
ghost use Rattle.records.specs.Lists.{kept, lent};
ghost use Rattle.sheet.specs.Delivers.{Delivered};
ghost use Rattle.sheet.specs.Reading.{EarlyLine};
ghost use Rattle.sheet.specs.Text.{TakesExactly};

use reader::Reader;
use records::Records;
use tasks::{SheetFault, Task};

mod reader;
mod rows;

// Reads a task sheet into the list and answers the number of controllers. A refused opening leaves the list as it was;
// after a later refusal it holds exactly the rows of the lines before.
pub fn read_sheet(bytes: &[u8], rows: &mut Records<Task>) -> Result<u8, SheetFault>
    ensures delivered { Delivered bytes.now rows.old result rows.new }
    ensures exactly { TakesExactly bytes.now (length (lent rows.old)) result (kept rows.new) }
    ensures early { EarlyLine result }
{
    read_lines(bytes, rows)
}

// The opening, the rows, the close, and nothing after it.
fn read_lines(bytes: &[u8], rows: &mut Records<Task>) -> Result<u8, SheetFault>
    ensures delivered { Delivered bytes.now rows.old result rows.new }
{
    let mut reader = Reader::new(bytes);
    let (m, tasks) = reader.opening(rows.places())?;
    rows.clear();
    for _i in 0..tasks {
        let task = reader.row(rows.as_slice())?;
        rows.push(task)?;
    }
    reader.close()?;
    reader.end()?;
    Ok(m)
}
