ghost use Rattle.std.specs.Prelude.{◌≡◌, ℕ, ◌<◌, ◌≤◌, T, ◌↔◌, length, slice_index};
ghost use Rattle.policies.specs.Names.{EachOnce};

// Whether the list has each number below its length once.
pub(crate) fn each_once(list: &[u8]) -> bool
    ensures once { T result ↔ EachOnce list.now }
{
    list.iter().enumerate().all(|(place, name)| {
        let before = &list[..place];
        usize::from(*name) < list.len() && !before.contains(name)
    })
}

// The list in the first places of eight.
pub(crate) fn padded(list: &[u8]) -> [u8; 8]
    requires short { length list.now ≤ 8 }
    ensures value { (k : ℕ) → k < length list.now → slice_index result k ≡ slice_index list.now k }
{
    let mut names = [0; 8];
    names[..list.len()].copy_from_slice(list);
    names
}
