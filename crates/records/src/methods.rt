ghost use Rattle.std.specs.Prelude.{◌≡◌, length};
ghost use Rattle.std.specs.List.{slice_get};
ghost use Rattle.records.specs.Lists.{Added, kept, lent};

use crate::{Full, Records};

impl<'a, R: Copy> Records<'a, R> {
    // An empty list over these places, none of which is written.
    pub fn new(places: &'a mut [R]) -> Records<'a, R>
        ensures empty { result.len ≡ 0 }
        ensures same { result.places ≡ places.entry }
    {
        Records { places, len: 0 }
    }

    // How many records there are.
    pub fn len(&self) -> usize
        ensures value { result ≡ self.now.len }
    {
        self.as_slice().len()
    }

    // How many records fit.
    pub fn places(&self) -> usize
        ensures value { result ≡ length (lent self.now) }
    {
        self.places.len()
    }

    // Begins the list again at its first place.
    pub fn clear(&mut self)
        ensures empty { self.new.len ≡ 0 }
        ensures same { lent self.new ≡ lent self.old }
        ensures lender { self.new.places.ghost_name ≡ self.old.places.ghost_name }
    {
        self.len = 0;
    }

    // The records, in the order in which they were added.
    pub fn as_slice(&self) -> &[R]
        ensures value { result.now ≡ kept self.now }
    {
        &self.places[0..self.len]
    }

    // Record i, counted from 0.
    pub fn get(&self, i: usize) -> Option<R>
        ensures value { result ≡ slice_get (kept self.now) i }
    {
        self.as_slice().get(i).copied()
    }

    // Adds a record at the end, or refuses when every place is taken.
    pub fn push(&mut self, x: R) -> Result<(), Full>
        ensures added { Added self.old x result self.new }
        ensures lender { self.new.places.ghost_name ≡ self.old.places.ghost_name }
    {
        let len = self.len;
        if len == self.places() {
            return Err(Full);
        }
        self.places[len] = x;
        self.len = len + 1;
        Ok(())
    }
}
