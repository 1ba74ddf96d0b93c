ghost use Rattle.std.specs.Prelude.{◌≡◌, ℕ, Ok, Err, refl};
ghost use Rattle.policies.specs.Meanings.{Follows, listed_means};
ghost use Rattle.policies.specs.Orders.{Arrangement, upward};
ghost use Rattle.tasks.specs.Counts.{clamped};
ghost use Rattle.tasks.specs.declared.fault.ListFault.TheVariants.{NotEachOnce};
ghost use Rattle.policies.specs.Naming.{named_arranged};

use crate::count::Count;
use crate::policy::Policy;
use crate::roster::Roster;
use tasks::ListFault;

// The controllers as a list from the shop has them, at first from 0 upward.
#[derive(Drop)]
pub struct Listed {
    roster: Roster,
}

impl Listed {
    pub fn new(count: u8) -> Listed
        ensures count { listed_means.count result ≡ clamped count }
        ensures order { (level : ℕ) → listed_means.order result level ≡ upward (clamped count) }
    {
        Listed {
            roster: Roster::plain(Count::new(count)),
        }
    }

    // Follows the list from now on, for each level, if it is each controller exactly once.
    pub fn take_list(&mut self, list: &[u8]) -> Result<(), ListFault>
        ensures answer { elim result [ Ok _ ↦ Arrangement (listed_means.count self.old) list.now | Err fault ↦ (fault ≡ NotEachOnce) × (Arrangement (listed_means.count self.old) list.now → ⊥) ] }
        ensures after { elim result [ Ok _ ↦ Follows self.old self.new list.now | Err _ ↦ self.new ≡ self.old ] }
    {
        self.roster = Roster::from_list(self.roster.count, list)?;
        Ok(())
    }
}

impl Policy for Listed {
    ghost meaning = { listed_means };

    ghost lawful = { record {
      few = λ p. p.roster.count.ok;
      arranged = λ p level. named_arranged p.roster.count.value p.roster.names p.roster.below p.roster.apart;
      kept = λ p level controller. refl;
    } };

    fn count(&self) -> u8 {
        self.roster.count.value
    }

    fn place(&self, _level: u8, k: u8) -> Option<u8> {
        self.roster.place(k)
    }

    fn tell(&mut self, _level: u8, _controller: u8) {}
}
