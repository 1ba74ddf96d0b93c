ghost use Rattle.std.specs.Prelude.{◌≡◌, ◌<◌, ◌≤◌, length, replicate, slice_index_or, slice_set};

// Records by number: of controllers, or of rows.
#[derive(Drop)]
pub(crate) struct Table<R, const N: usize> {
    records: [R; N],
    ghost whole: { length records ≡ N },
}

impl<R: Copy, const N: usize> Table<R, N> {
    pub(crate) fn filled(each: R) -> Table<R, N>
        ensures all { result.records ≡ replicate N each }
    {
        Table { records: [each; N] }
    }

    // The record of that number, and the other where there is none.
    pub(crate) fn get_or(&self, number: u8, other: R) -> R
        ensures value { result ≡ slice_index_or self.now.records number other }
    {
        self.records
            .get(usize::from(number))
            .copied()
            .unwrap_or(other)
    }

    // Changes the record of that number by the rule, where there is one.
    pub(crate) fn change<F: FnOnce(R) -> R + Drop>(&mut self, number: u8, rule: F)
        requires callable { F.IsAlwaysCallable rule }
        ensures there { number < N → (d : R) → (next : R) × F.post rule (slice_index_or self.old.records number d) next × (self.new.records ≡ slice_set self.old.records number next) }
        ensures beyond { N ≤ number → self.new.records ≡ self.old.records }
    {
        let at = usize::from(number);
        if at < N {
            self.records[at] = rule(self.records[at]);
        }
    }
}
