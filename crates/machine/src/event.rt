// What a tick does, in the order in which it does it.

// A switch to the critical mode; a job of the row cut on the controller; a job of the row started there.
#[derive(Clone, Copy)]
pub enum Event {
    Switch,
    Cut { controller: u8, row: u8 },
    Start { controller: u8, row: u8 },
}

// The events of one tick: the first `count` places. A switch stands in each other place. An array with its count, since a
// bench's memory is fixed.
#[derive(Clone, Copy)]
pub struct Written {
    pub count: u8,
    pub events: [Event; 17],
}
