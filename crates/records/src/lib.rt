// One list for any kind of record, kept in places that the caller lends.
#![tactic(auto)]

ghost use Rattle.std.specs.Prelude.{◌≤◌, length};

mod methods;

// Every place is taken.
#[derive(Clone, Copy)]
pub struct Full;

// Records in the order in which they were added: the first `len` of the places. The length stands beside lent places since a
// `Vec` would need the heap, which no library here uses.
#[derive(Drop)]
pub struct Records<'a, R> {
    places: &'a mut [R],
    len: usize,
    ghost within: { len ≤ length places.now },
}
