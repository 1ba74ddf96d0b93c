// A plan run for a number of ticks.
use crate::sums::{Outcome, Sums};
use benches::{Bench, Slate};
use control::Control;
use machine::{Counts, Event};
use planner::Plan;
use records::Records;
use std::fmt;
use tasks::ControlFault;

// As many places as the largest tick needs.
const PLACES: usize = 17;

// Whether jobs are reported. Where none ever is, the first job that has had its budget turns the mode critical, and each later
// one is cut. Where each is reported after the tick that started it, the mode stays everyday.
#[derive(Clone, Copy)]
pub(crate) enum Way {
    Quiet,
    Reported,
}

// So many ticks, one way.
#[derive(Clone, Copy)]
pub(crate) struct Course {
    pub(crate) way: Way,
    pub(crate) ticks: u64,
}

// Reports the job of each busy controller.
fn report_all(control: &mut Control<Slate>) -> Result<(), ControlFault> {
    for controller in 0..control.bench().count() {
        if control.controller(controller)?.is_some() {
            control.report(controller)?;
        }
    }
    Ok(())
}

// What the control has counted, over all rows.
fn counted(control: &Control<Slate>, plan: &Plan) -> Result<Counts, ControlFault> {
    let mut counts = Counts::default();
    for (row, _placed) in (0..).zip(plan.rows()) {
        let more = control.row(row)?;
        counts.starts = counts.starts.wrapping_add(more.starts);
        counts.reports = counts.reports.wrapping_add(more.reports);
        counts.cuts = counts.cuts.wrapping_add(more.cuts);
    }
    Ok(counts)
}

impl Course {
    // Runs the plan on a new control over an idle slate.
    pub(crate) fn run(&self, plan: &Plan) -> Result<Outcome, ControlFault> {
        let mut control = Control::new(Slate::new(plan.controllers()));
        control.load(plan)?;
        let mut places = [Event::Switch; PLACES];
        let mut events = Records::new(&mut places);
        let mut sums = Sums::default();
        for _ in 0..self.ticks {
            control.tick(&mut events)?;
            sums.add(events.as_slice());
            if let Way::Reported = self.way {
                report_all(&mut control)?;
            }
        }
        Ok(Outcome {
            sums,
            counts: counted(&control, plan)?,
        })
    }
}

impl fmt::Display for Way {
    fn fmt<W: fmt::Write>(&self, f: &mut fmt::Formatter<W>) -> fmt::Result {
        match self {
            Way::Quiet => write!(f, "quiet"),
            Way::Reported => write!(f, "reported"),
        }
    }
}

impl fmt::Display for Course {
    fn fmt<W: fmt::Write>(&self, f: &mut fmt::Formatter<W>) -> fmt::Result {
        let Course { way, ticks } = self;
        write!(f, "{way}, {ticks} ticks")
    }
}
