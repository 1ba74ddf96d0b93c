ghost use Rattle.benches.specs.Sets.{busy_at, busy_count, busy_set, lowest_busy};
ghost use Rattle.std.specs.Prelude.{◌≡◌};

use crate::bench::Bench;

// Whether there is such a controller and it is busy.
fn is_busy<B: Bench>(bench: &B, controller: u8) -> bool
    ensures value { result ≡ busy_at (B.meaning bench.now) controller }
{
    matches!(bench.state(controller), Ok(Some(_)))
}

// The busy controllers, a bit for each.
pub fn busy_set<B: Bench>(bench: &B) -> u8
    ensures value { result ≡ busy_set (B.meaning bench.now) }
{
    let mut set: u8 = 0;
    for controller in 0..bench.count() {
        if is_busy(bench, controller) {
            set |= 1 << controller;
        }
    }
    set
}

// How many controllers are busy. They are at most eight, so the cast needs no `try_from`.
pub fn busy_count<B: Bench>(bench: &B) -> u8
    ensures value { result ≡ busy_count (B.meaning bench.now) }
{
    busy_set(bench).count_ones() as u8
}

// The lowest controller that is busy, if any is; the cast as above.
#[tactic(auto, using(crate::proofs::BusySets::lowest_by_set))]
pub fn lowest_busy<B: Bench>(bench: &B) -> Option<u8>
    ensures value { result ≡ lowest_busy (B.meaning bench.now) }
{
    let set = busy_set(bench);
    (set != 0).then_some(set.trailing_zeros() as u8)
}
