ghost use Rattle.std.specs.Prelude.{◌≡◌, ℕ, refl};
ghost use Rattle.policies.specs.Meanings.{ends_means};
ghost use Rattle.policies.specs.Orders.{by_level};
ghost use Rattle.tasks.specs.Counts.{clamped};
ghost use Rattle.policies.specs.Arranged.{level_arranged};

use crate::count::Count;
use crate::policy::Policy;

// The controllers from 0 upward for critical tasks, and from the last downward for everyday tasks.
#[derive(Drop)]
pub struct Ends {
    count: Count,
}

impl Ends {
    // The text of `Front::new`, but another promise of the order: one function for both would need a trait with the order in it.
    pub fn new(count: u8) -> Ends
        ensures count { ends_means.count result ≡ clamped count }
        ensures order { (level : ℕ) → ends_means.order result level ≡ by_level level (clamped count) }
    {
        Ends {
            count: Count::new(count),
        }
    }
}

impl Policy for Ends {
    ghost meaning = { ends_means };

    ghost lawful = { record {
      few = λ p. p.count.ok;
      arranged = λ p level. level_arranged level p.count.value;
      kept = λ p level controller. refl;
    } };

    fn count(&self) -> u8 {
        self.count.value
    }

    fn place(&self, level: u8, k: u8) -> Option<u8> {
        if level == 0 {
            self.count.down(k)
        } else {
            self.count.up(k)
        }
    }

    fn tell(&mut self, _level: u8, _controller: u8) {}
}
