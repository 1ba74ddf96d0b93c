// How a row's counts change: three functions, since each names another field.
ghost use Rattle.std.specs.Prelude.{◌≡◌, replicate};
ghost use Rattle.machine.specs.Machine.{none_yet, with_cut, with_report, with_start};

use crate::table::Table;
use machine::Counts;

// By row.
pub(crate) type Tallies = Table<Counts, 64>;

impl Tallies {
    pub(crate) fn new() -> Tallies
        ensures all { result.records ≡ replicate 64 none_yet }
    {
        Table::filled(Counts::default())
    }
}

// A job of the row started.
pub(crate) fn with_start(counts: Counts) -> Counts
    ensures value { result ≡ with_start counts }
{
    Counts {
        starts: counts.starts.saturating_add(1),
        ..counts
    }
}

// One was reported.
pub(crate) fn with_report(counts: Counts) -> Counts
    ensures value { result ≡ with_report counts }
{
    Counts {
        reports: counts.reports.saturating_add(1),
        ..counts
    }
}

// One was cut or struck.
pub(crate) fn with_cut(counts: Counts) -> Counts
    ensures value { result ≡ with_cut counts }
{
    Counts {
        cuts: counts.cuts.saturating_add(1),
        ..counts
    }
}
