// What a printed line is, by the number of its first byte.
#[derive(Clone, Copy)]
pub(crate) enum Kind {
    Opening = 4,
    Row = 5,
    Close = 6,
    Refusal = 7,
}
