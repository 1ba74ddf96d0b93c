ghost use Rattle.std.specs.Prelude.{◌≡◌, [], replicate};
ghost use Rattle.planner.specs.Plans.{rows_of};
ghost use Rattle.planner.specs.Rows.{no_row};
ghost use Rattle.planner.specs.Standing.{Stands};

use crate::plans::Plan;
use crate::row::Row;

impl Plan {
    // A plan not yet filled.
    pub fn new() -> Plan
        ensures controllers { result.controllers ≡ 0 }
        ensures rows { rows_of result ≡ [] }
        ensures rest { result.table ≡ replicate 64 no_row }
    {
        Plan {
            controllers: 0,
            count: 0,
            table: [Row::default(); 64],
        }
    }

    // How many controllers there are; 0 where the plan is not yet filled.
    pub fn controllers(&self) -> u8
        ensures value { result ≡ self.now.controllers }
    {
        self.controllers
    }

    // The rows, in the order in which they were placed. What every plan keeps holds of them.
    pub fn rows(&self) -> &[Row]
        ensures value { result.now ≡ rows_of self.now }
        ensures stands { Stands self.now.controllers (rows_of self.now) }
    {
        &self.table[..usize::from(self.count)]
    }
}
