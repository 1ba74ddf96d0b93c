// What a tick decided, carried out. The control and the list of events stay two arguments: a struct of both would be made for
// one call, and each clause would name the same two parts of it.
ghost use Rattle.std.specs.Prelude.{◌≡◌, ℕ, ◌+◌, ◌*◌, ◌<◌, ◌≤◌, [], ◌∷◌, length, Some, None, slice_index_or};
ghost use Rattle.records.specs.Lists.{lent};
ghost use Rattle.machine.specs.Below.{first_below};
ghost use Rattle.machine.specs.Machine.{act, blocked, switch_event, tick_events};
ghost use Rattle.control.specs.States.{state_of};
ghost use Rattle.control.specs.Turns.{Able, Decided, Did, deed_events, event_of};

use crate::control::Control;
use crate::tallies::{with_cut, with_start};
use crate::turn::{Deed, Turn};
use benches::Bench;
use machine::Event;
use records::Records;
use tasks::Mode;

impl Deed {
    fn event(self, controller: u8, row: u8) -> Event
        ensures value { result ≡ event_of self controller row }
    {
        match self {
            Deed::End => Event::Cut { controller, row },
            Deed::Begin => Event::Start { controller, row },
        }
    }
}

impl<B: Bench> Control<B> {
    // One event carried out. The bench is commanded, and what it took is counted.
    fn act(&mut self, event: Event)
        requires able { Able (state_of B.Bench.meaning self.old) event }
        ensures after { state_of B.Bench.meaning self.new ≡ act (state_of B.Bench.meaning self.old) event }
        ensures plan { self.new.plan ≡ self.old.plan }
        ensures fixed { B.Bench.fixed self.new.bench ≡ B.Bench.fixed self.old.bench }
    {
        match event {
            Event::Switch => {
                self.mode = Mode::Critical;
                self.opening = self.next;
            }
            Event::Cut { controller, row } => {
                if self.bench.end(controller).is_ok() {
                    self.tallies.change(row, with_cut);
                }
            }
            Event::Start { controller, row } => {
                if self.bench.start(controller, row).is_ok() {
                    self.jobs.started(controller, self.next);
                    self.tallies.change(row, with_start);
                }
            }
        }
    }

    // One event carried out and written down.
    fn note(&mut self, event: Event, events: &mut Records<Event>)
        requires able { Able (state_of B.Bench.meaning self.old) event }
        requires room { events.old.len < length (lent events.old) }
        ensures did { Did B.Bench.meaning B.Bench.fixed self.old self.new events.old events.new (event ∷ []) }
    {
        self.act(event);
        let _ = events.push(event);
    }

    // The deed done on each controller that has a row for it, by rising controller.
    fn carry_out(&mut self, deed: Deed, rows: &[Option<u8>; 8], events: &mut Records<Event>)
        requires able { (c r : ℕ) → c < length (B.Bench.meaning self.old.bench) → slice_index_or rows.now c None ≡ Some r → Able (state_of B.Bench.meaning self.old) (event_of deed c r) }
        requires room { events.old.len + length (B.Bench.meaning self.old.bench) ≤ length (lent events.old) }
        ensures did { Did B.Bench.meaning B.Bench.fixed self.old self.new events.old events.new (deed_events deed (length (B.Bench.meaning self.old.bench)) rows.now) }
    {
        // By index: over `(0..count).zip(rows)` the proof did not close.
        for c in 0..self.bench.count() {
            let held = rows[usize::from(c)];
            if let Some(row) = held {
                self.note(deed.event(c, row), events);
            }
        }
    }

    // The switch, if there is one.
    fn switch_if(&mut self, switching: bool, events: &mut Records<Event>)
        requires room { events.old.len < length (lent events.old) }
        ensures did { Did B.Bench.meaning B.Bench.fixed self.old self.new events.old events.new (switch_event switching) }
    {
        if switching {
            self.note(Event::Switch, events);
        }
    }

    // The switch, the cuts and the starts of the turn.
    pub(crate) fn perform(&mut self, turn: &Turn, events: &mut Records<Event>)
        requires decided { Decided (state_of B.Bench.meaning self.old) turn.now }
        requires free { first_below (length (B.Bench.meaning self.old.bench)) (blocked (state_of B.Bench.meaning self.old)) ≡ None }
        requires begun { events.old.len ≡ 0 }
        requires room { 2 * length (B.Bench.meaning self.old.bench) + 1 ≤ length (lent events.old) }
        ensures did { Did B.Bench.meaning B.Bench.fixed self.old self.new events.old events.new (tick_events (state_of B.Bench.meaning self.old)) }
    {
        self.switch_if(turn.switches, events);
        self.carry_out(Deed::End, &turn.cuts, events);
        self.carry_out(Deed::Begin, &turn.starts, events);
    }
}
