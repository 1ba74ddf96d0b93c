ghost use Rattle.policies.specs.Names.{EachApart, EachBelow, named};
ghost use Rattle.policies.specs.Orders.{Arrangement, upward};
ghost use Rattle.std.specs.Prelude.{◌≡◌, Ok, Err};
ghost use Rattle.std.specs.List.{slice_get};
ghost use Rattle.tasks.specs.declared.fault.ListFault.TheVariants.{NotEachOnce};

use crate::count::Count;
use crate::names::{each_once, padded};
use tasks::ListFault;

// The controllers in an order of the shop's own. Only the first `count` of eight names are in use: memory is fixed.
#[derive(Drop)]
pub(crate) struct Roster {
    pub(crate) count: Count,
    names: [u8; 8],
    ghost below: { EachBelow count.value count.value names },
    ghost apart: { EachApart count.value names },
}

impl Roster {
    // The controllers from 0 upward.
    pub(crate) fn plain(count: Count) -> Roster
        ensures count { result.count.value ≡ count.value }
        ensures order { named result.count.value result.names ≡ upward count.value }
    {
        Roster {
            count,
            names: [0, 1, 2, 3, 4, 5, 6, 7],
        }
    }

    // The controllers as the list names them, if it names each exactly once.
    pub(crate) fn from_list(count: Count, list: &[u8]) -> Result<Roster, ListFault>
        ensures value { elim result [ Ok s ↦ Arrangement count.value list.now × (s.count.value ≡ count.value) × (named s.count.value s.names ≡ list.now) | Err fault ↦ (fault ≡ NotEachOnce) × (Arrangement count.value list.now → ⊥) ] }
    {
        if list.len() != usize::from(count.value) || !each_once(list) {
            return Err(ListFault::NotEachOnce);
        }
        Ok(Roster {
            count,
            names: padded(list),
        })
    }

    // The controller at place `k`, or none past the last.
    pub(crate) fn place(&self, k: u8) -> Option<u8>
        ensures value { result ≡ slice_get (named self.now.count.value self.now.names) k }
    {
        (k < self.count.value).then(|| self.names[usize::from(k)])
    }
}
