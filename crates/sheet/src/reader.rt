// The reader walks the sheet in the caller's bytes.
ghost use Rattle.std.specs.Prelude.{◌≤◌, length};

mod stages;
mod walk;

// The sheet, how many bytes of it are read, and how many lines they are.
#[derive(Drop)]
pub(crate) struct Reader<'a> {
    bytes: &'a [u8],
    place: usize,
    line: usize,
    ghost within: { place ≤ length bytes.now },
    ghost counted: { line ≤ place },
}
