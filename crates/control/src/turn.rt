// What a tick will do: whether it switches, and by controller the row whose job it cuts and the row that it starts. Two
// tables and not one of pairs, since each is carried out whole, the cuts before the starts. That it is what the tick decides
// (`decided`) is no invariant of it: it speaks of the control too, which changes while the turn is carried out.
#[derive(Clone, Copy)]
pub(crate) struct Turn {
    pub(crate) switches: bool,
    pub(crate) cuts: [Option<u8>; 8],
    pub(crate) starts: [Option<u8>; 8],
}

// What is done to a controller by a tick: its job is cut, or a row is started. An enum and no closure, so that the promise
// can name the event of each.
#[derive(Clone, Copy)]
pub(crate) enum Deed {
    End,
    Begin,
}
