ghost use Rattle.frames.specs.Kinds.{Decodes};

// What a frame is, by the number of its first byte.
#[derive(Clone, Copy)]
pub(crate) enum Kind {
    Opening = 1,
    Row = 2,
    Close = 3,
}

// A byte that is the number of no kind.
#[derive(Clone, Copy)]
pub(crate) struct UnknownKind;

impl TryFrom<u8> for Kind {
    type Error = UnknownKind;

    ghost try_from_gives = { Decodes };

    fn try_from(byte: u8) -> Result<Kind, UnknownKind> {
        match byte {
            1 => Ok(Kind::Opening),
            2 => Ok(Kind::Row),
            3 => Ok(Kind::Close),
            _ => Err(UnknownKind),
        }
    }
}
