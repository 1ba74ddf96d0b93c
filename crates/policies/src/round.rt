ghost use Rattle.std.specs.Prelude.{◌≡◌, ℕ, refl};
ghost use Rattle.policies.specs.Meanings.{round_means};
ghost use Rattle.policies.specs.Orders.{round_from};
ghost use Rattle.tasks.specs.Counts.{clamped};
ghost use Rattle.policies.specs.Arranged.{round_arranged};

use crate::count::Count;
use crate::policy::Policy;

// The controllers round from the one after that last told, at first from 0.
#[derive(Drop)]
pub struct Round {
    count: Count,
    first: u8,
}

impl Round {
    pub fn new(count: u8) -> Round
        ensures count { round_means.count result ≡ clamped count }
        ensures order { (level : ℕ) → round_means.order result level ≡ round_from 0 (clamped count) }
    {
        Round {
            count: Count::new(count),
            first: 0,
        }
    }
}

impl Policy for Round {
    ghost meaning = { round_means };

    ghost lawful = { record {
      few = λ p. p.count.ok;
      arranged = λ p level. round_arranged p.first p.count.value p.count.ok.0;
      kept = λ p level controller. refl;
    } };

    fn count(&self) -> u8 {
        self.count.value
    }

    fn place(&self, _level: u8, k: u8) -> Option<u8> {
        self.count.around(self.first, k)
    }

    fn tell(&mut self, _level: u8, controller: u8) {
        if controller < self.count.value {
            self.first = controller + 1;
        }
    }
}
