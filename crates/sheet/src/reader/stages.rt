ghost use Rattle.std.specs.Prelude.{◌≡◌, ◌+◌};
ghost use Rattle.sheet.specs.Lines.{next_told};
ghost use Rattle.sheet.specs.Reading.{counts_in_range, opening_of, row_of, close_of, end_of};
ghost use Rattle.sheet.specs.Walk.{Moved, left};

use crate::reader::Reader;
use crate::rows::check_row;
use frames::{Frame, opening_fields, task_fields};
use tasks::{SheetFault, Task};

// 1 to 8 controllers, and at most 64 tasks.
fn counts_in_range(m: u8, tasks: u8) -> bool
    ensures value { result ≡ counts_in_range m tasks }
{
    (1..=8).contains(&m) && tasks <= 64
}

// Each call says how the reader moved on (`moved`). That is a fact of the call and of no reader by itself, so no invariant
// can take it. The heads of `opening`, `row` and `close` differ in a pattern, which no function can take: one head for all would
// take a closure that maps a frame to its fields, and be no shorter.
impl<'a> Reader<'a> {
    // The opening: the count of controllers, and the number of tasks.
    pub(crate) fn opening(&mut self, places: usize) -> Result<(u8, u8), SheetFault>
        ensures value { result ≡ opening_of places (self.old.line + 1) (next_told self.old.line (left self.old)) }
        ensures moved { Moved self.old self.new }
    {
        let line = self.line + 1;
        let Some(Frame::Opening(digits)) = self.next_frame()? else {
            return Err(SheetFault::OutOfPlace { line });
        };
        let (m, tasks) = opening_fields(digits);
        if !counts_in_range(m, tasks) {
            return Err(SheetFault::Counts { line });
        }
        if places < usize::from(tasks) {
            return Err(SheetFault::Places { line });
        }
        Ok((m, tasks))
    }

    // The next task, checked against the rows before it.
    pub(crate) fn row(&mut self, rows: &[Task]) -> Result<Task, SheetFault>
        ensures value { result ≡ row_of (self.old.line + 1) rows.now (next_told self.old.line (left self.old)) }
        ensures moved { Moved self.old self.new }
    {
        let line = self.line + 1;
        let Some(Frame::Row(digits)) = self.next_frame()? else {
            return Err(SheetFault::OutOfPlace { line });
        };
        check_row(line, rows, task_fields(digits))
    }

    // The close.
    pub(crate) fn close(&mut self) -> Result<(), SheetFault>
        ensures value { result ≡ close_of (self.old.line + 1) (next_told self.old.line (left self.old)) }
        ensures moved { Moved self.old self.new }
    {
        let line = self.line + 1;
        let Some(Frame::Close) = self.next_frame()? else {
            return Err(SheetFault::OutOfPlace { line });
        };
        Ok(())
    }

    // Nothing after the close.
    pub(crate) fn end(&mut self) -> Result<(), SheetFault>
        ensures value { result ≡ end_of (self.old.line + 1) (next_told self.old.line (left self.old)) }
        ensures moved { Moved self.old self.new }
    {
        let line = self.line + 1;
        match self.next_frame()? {
            Some(_) => Err(SheetFault::OutOfPlace { line }),
            None => Ok(()),
        }
    }
}
