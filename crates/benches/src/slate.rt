ghost use Rattle.std.specs.Prelude.{◌≡◌, ◌≤◌, length};

// A bench that keeps its own table. Only the first `count` of eight places are in use: memory is fixed.
#[derive(Drop)]
pub struct Slate {
    pub(crate) count: u8,
    pub(crate) table: [Option<u8>; 8],
    ghost few: { count ≤ 8 },
    ghost whole: { length table ≡ 8 },
}
