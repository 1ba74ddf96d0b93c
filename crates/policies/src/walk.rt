ghost use Rattle.policies.specs.Orders.{downward, round_from, upward};
ghost use Rattle.std.specs.List.{slice_get};
ghost use Rattle.std.specs.Prelude.{◌≡◌};

use crate::count::Count;

impl Count {
    // The controller at place `k` from 0 upward.
    pub(crate) fn up(self, k: u8) -> Option<u8>
        ensures value { result ≡ slice_get (upward self.value) k }
    {
        (k < self.value).then_some(k)
    }

    // The controller at place `k` from the last downward.
    pub(crate) fn down(self, k: u8) -> Option<u8>
        ensures value { result ≡ slice_get (downward self.value) k }
    {
        (k < self.value).then(|| self.value - 1 - k)
    }

    // The controller at place `k` round from this one. The remainder fits a byte, as is proved, so the cast needs no `try_from`.
    pub(crate) fn around(self, first: u8, k: u8) -> Option<u8>
        ensures value { result ≡ slice_get (round_from first self.value) k }
    {
        (k < self.value).then(|| ((u16::from(first) + u16::from(k)) % u16::from(self.value)) as u8)
    }
}
