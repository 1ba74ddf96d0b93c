ghost use Rattle.std.specs.Prelude.{◌≡◌};
ghost use Rattle.planner.specs.Rows.{start};
ghost use Rattle.tasks.specs.Modes.{number};

use tasks::{Mode, PerMode, Task};

// The start in a mode that the task does not belong to. A number and no Option: `Row::start` promises one in each mode.
pub const NO_START: u16 = 65535;

// A task with its controller and its starts. The default stands where no row is.
#[derive(Clone, Copy, Default)]
pub struct Row {
    pub task: Task,
    pub controller: u8,
    pub starts: PerMode,
}

impl Row {
    // The start in this mode.
    pub fn start(&self, mode: Mode) -> u16
        ensures value { result ≡ start self.now (number mode) }
    {
        self.starts.of(mode)
    }
}
