ghost use Rattle.std.specs.Prelude.{◌≡◌, ℕ};
ghost use Rattle.policies.specs.Meanings.{front_means};
ghost use Rattle.policies.specs.Orders.{upward};
ghost use Rattle.tasks.specs.Counts.{clamped};
ghost use Rattle.policies.specs.Arranged.{front_lawful};

use crate::count::Count;
use crate::policy::Policy;

// The controllers from 0 upward, for each level.
#[derive(Drop)]
pub struct Front {
    count: Count,
}

impl Front {
    pub fn new(count: u8) -> Front
        ensures count { front_means.count result ≡ clamped count }
        ensures order { (level : ℕ) → front_means.order result level ≡ upward (clamped count) }
    {
        Front {
            count: Count::new(count),
        }
    }
}

impl Policy for Front {
    ghost meaning = { front_means };

    ghost lawful = { front_lawful };

    fn count(&self) -> u8 {
        self.count.value
    }

    fn place(&self, _level: u8, k: u8) -> Option<u8> {
        self.count.up(k)
    }

    fn tell(&mut self, _level: u8, _controller: u8) {}
}
