// What came of a run.
use machine::{Counts, Event};
use std::fmt;

// How many events there were, and of each kind. A run has fewer than 2^45, so none wraps.
#[derive(Clone, Copy, Default)]
pub(crate) struct Sums {
    events: u64,
    switches: u64,
    cuts: u64,
    starts: u64,
}

// The events that the ticks wrote, and what the control counted for its rows.
#[derive(Clone, Copy)]
pub(crate) struct Outcome {
    pub(crate) sums: Sums,
    pub(crate) counts: Counts,
}

impl Sums {
    // The events of one more tick.
    pub(crate) fn add(&mut self, events: &[Event]) {
        for event in events {
            self.events = self.events.wrapping_add(1);
            match event {
                Event::Switch => self.switches = self.switches.wrapping_add(1),
                Event::Cut { .. } => self.cuts = self.cuts.wrapping_add(1),
                Event::Start { .. } => self.starts = self.starts.wrapping_add(1),
            }
        }
    }
}

impl fmt::Display for Sums {
    fn fmt<W: fmt::Write>(&self, f: &mut fmt::Formatter<W>) -> fmt::Result {
        let Sums {
            events,
            switches,
            cuts,
            starts,
        } = self;
        write!(
            f,
            "events {events} switches {switches} cuts {cuts} starts {starts}"
        )
    }
}

impl fmt::Display for Outcome {
    fn fmt<W: fmt::Write>(&self, f: &mut fmt::Formatter<W>) -> fmt::Result {
        let Counts {
            starts,
            reports,
            cuts,
        } = self.counts;
        write!(
            f,
            "{}; rows started {starts} reported {reports} cut {cuts}",
            self.sums
        )
    }
}
