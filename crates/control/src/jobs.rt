// When the controllers' present jobs started.
ghost use Rattle.std.specs.Prelude.{◌≡◌, replicate, slice_index, slice_set};
ghost use Rattle.control.specs.Tables.{since_of};

use crate::table::Table;

// What is kept of a controller: the instant at which its present job started.
#[derive(Clone, Copy, Default)]
pub(crate) struct ControllerRecord {
    since: u64,
}

// By controller.
pub(crate) type Jobs = Table<ControllerRecord, 8>;

impl Jobs {
    pub(crate) fn new() -> Jobs
        ensures all { since_of result ≡ replicate 8 0 }
    {
        Table::filled(ControllerRecord::default())
    }

    // The instant at which the controller's present job started, and 0 where there is no such controller.
    pub(crate) fn since(&self, controller: u8) -> u64
        ensures value { result ≡ slice_index (since_of self.now) controller }
    {
        self.get_or(controller, ControllerRecord::default()).since
    }

    // The controller's present job started at this instant.
    pub(crate) fn started(&mut self, controller: u8, since: u64)
        ensures after { since_of self.new ≡ slice_set (since_of self.old) controller since }
    {
        self.change(controller, |_| ControllerRecord { since });
    }
}
