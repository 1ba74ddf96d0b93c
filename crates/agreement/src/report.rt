// What planning and search say, as text.
ghost use Rattle.std.specs.Prelude.{◌≤◌, length};

use crate::compare::Agreed;
use crate::search::Outcome;
use crate::sheets::Sheet;
use std::fmt;

// What planning is to answer: the appendix, or the numbers of the refusal.
#[derive(Clone, Copy)]
pub(crate) struct Expected<'a> {
    pub(crate) sheet: &'a Sheet,
    pub(crate) outcome: &'a Outcome,
}

// The numbers of a refusal.
#[derive(Clone, Copy)]
pub(crate) struct RefusalText {
    pub(crate) number: u8,
    pub(crate) layer: u8,
    pub(crate) row: usize,
}

// A line for each row.
#[derive(Clone, Copy)]
pub(crate) struct Rows<'a>(pub(crate) &'a Agreed);

// A sheet in one line, up to the word `agree`: controller@everyday/critical of each row.
#[derive(Clone, Copy)]
pub(crate) struct Short<'a>(pub(crate) &'a Agreed);

// How many sheets agree, and how.
#[derive(Clone, Copy)]
pub(crate) struct Tally<'a>(pub(crate) &'a [Agreed]);

// A critical start, or - for an everyday task.
#[derive(Clone, Copy)]
struct Critical(Option<usize>);

impl Tally<'_> {
    fn planned(&self) -> usize
        ensures { result ≤ length self.now.0.now }
    {
        self.0
            .iter()
            .filter(|agreed| matches!(agreed.outcome, Outcome::Planned(_)))
            .count()
    }
}

impl fmt::Display for Expected<'_> {
    fn fmt<W: fmt::Write>(&self, f: &mut fmt::Formatter<W>) -> fmt::Result {
        let Expected { sheet, outcome } = *self;
        match outcome {
            Outcome::Planned(placements) => {
                writeln!(f, "04{:02X}{:02X}", sheet.controllers, sheet.tasks.len())?;
                for (task, placement) in sheet.tasks.iter().zip(placements) {
                    writeln!(
                        f,
                        "05{:02X}{:02X}{:04X}{:04X}",
                        task.id,
                        placement.controller,
                        placement.everyday,
                        placement.critical.unwrap_or(0xFFFF)
                    )?;
                }
                writeln!(f, "06")
            }
            Outcome::Refused(row) => {
                // No controller takes the row, said by planning.
                let refusal = RefusalText {
                    number: 10,
                    layer: 4,
                    row: *row,
                };
                write!(f, "{refusal}")
            }
        }
    }
}

impl fmt::Display for RefusalText {
    fn fmt<W: fmt::Write>(&self, f: &mut fmt::Formatter<W>) -> fmt::Result {
        let RefusalText { number, layer, row } = *self;
        writeln!(f, "refusal {number}, layer {layer}, row {row}")
    }
}

impl fmt::Display for Rows<'_> {
    fn fmt<W: fmt::Write>(&self, f: &mut fmt::Formatter<W>) -> fmt::Result {
        match &self.0.outcome {
            Outcome::Planned(placements) => {
                for (row, placement) in placements.iter().enumerate() {
                    writeln!(
                        f,
                        "row {row} controller {} everyday {} critical {}",
                        placement.controller,
                        placement.everyday,
                        Critical(placement.critical)
                    )?;
                }
                Ok(())
            }
            Outcome::Refused(row) => writeln!(f, "no controller takes row {row}"),
        }
    }
}

impl fmt::Display for Short<'_> {
    fn fmt<W: fmt::Write>(&self, f: &mut fmt::Formatter<W>) -> fmt::Result {
        let Agreed { sheet, outcome } = self.0;
        let controllers = sheet.controllers;
        let plural = if controllers == 1 { "" } else { "s" };
        let tasks = sheet.tasks.len();
        write!(f, "{controllers} controller{plural}, {tasks} tasks: ")?;
        match outcome {
            Outcome::Planned(placements) => {
                for placement in placements {
                    write!(
                        f,
                        "{}@{}/{} ",
                        placement.controller,
                        placement.everyday,
                        Critical(placement.critical)
                    )?;
                }
                Ok(())
            }
            Outcome::Refused(row) => write!(f, "row {row} refused, "),
        }
    }
}

impl fmt::Display for Tally<'_> {
    fn fmt<W: fmt::Write>(&self, f: &mut fmt::Formatter<W>) -> fmt::Result {
        let (sheets, planned) = (self.0.len(), self.planned());
        let refused = sheets - planned;
        write!(
            f,
            "{sheets} sheets agree, {planned} planned and {refused} refused"
        )
    }
}

impl fmt::Display for Critical {
    fn fmt<W: fmt::Write>(&self, f: &mut fmt::Formatter<W>) -> fmt::Result {
        match self.0 {
            Some(start) => write!(f, "{start}"),
            None => write!(f, "-"),
        }
    }
}
