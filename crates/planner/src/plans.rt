ghost use Rattle.std.specs.Prelude.{◌≡◌, ◌≤◌, length, take};
ghost use Rattle.planner.specs.Standing.{EachSound, EachOn, NoneMeet};

use crate::row::Row;

// A plan: at most 64 rows on at most 8 controllers, of which no two ever meet. One not yet filled has no controllers.
// A table with a count beside it, since memory is fixed and nothing is allocated.
#[derive(Clone, Copy)]
pub struct Plan {
    pub(crate) controllers: u8,
    pub(crate) count: u8,
    pub(crate) table: [Row; 64],
    ghost whole: { length table ≡ 64 },
    ghost few: { controllers ≤ 8 },
    ghost short: { count ≤ 64 },
    ghost sound: { EachSound (take count table) },
    ghost there: { EachOn controllers (take count table) },
    ghost apart: { NoneMeet (take count table) },
}
