// Reads the table of sheets in `stdin` and prints what comes of each; `stdout` holds what should.
// A row is PLACES NAME: SHEET, where / stands for the end of a line and ~ for a carriage return.
// appendix_cases reads its rows alike. What of that needs the heap can be in no library crate here, and the rest is two `split_once`.
#![tactic(auto)]

use anyhow::Context;
use records::Records;
use sheet::read_sheet;
use std::{fmt, io};
use tasks::{Refusal, Task};

// As many places as a sheet has tasks at most.
const MOST_TASKS: usize = 64;

// A refusal as the table shows it.
#[derive(Clone, Copy)]
struct RefusalText(Refusal);

impl fmt::Display for RefusalText {
    fn fmt<W: fmt::Write>(&self, f: &mut fmt::Formatter<W>) -> fmt::Result {
        let RefusalText(refusal) = self;
        let number = refusal.number();
        let layer = refusal.layer_number();
        let line = refusal.place;
        write!(f, "refused {number}, layer {layer}, line {line}")?;
        match refusal.column {
            Some(column) => write!(f, ", column {column}"),
            None => Ok(()),
        }
    }
}

// What comes of a sheet read into so many places, and the ids of the rows that the list then holds.
fn print_outcome(rt: &impl Print, sheet: &[u8], places: usize) -> io::Result<()> {
    let mut table = [Task::default(); MOST_TASKS];
    let mut rows = Records::new(&mut table[..places.min(MOST_TASKS)]);
    match read_sheet(sheet, &mut rows) {
        Ok(m) => print!(rt; "taken, m {m}")?,
        Err(fault) => print!(rt; "{}", RefusalText(fault.into()))?,
    }
    print!(rt; "; rows")?;
    for row in rows.as_slice() {
        print!(rt; " {:02X}", row.id)?;
    }
    println!(rt)
}

fn show(rt: &HostRuntime, row: &str) -> anyhow::Result<()> {
    let (places, rest) = row.split_once(' ').context("a row without places")?;
    let (_name, text) = rest.split_once(": ").context("a row without a sheet")?;
    let sheet = text
        .replace(rt.alloc(), '/', "\n")?
        .replace(rt.alloc(), '~', "\r")?;
    print!(rt; "{row} -> ")?;
    print_outcome(rt, sheet.as_bytes(), places.parse()?)?;
    Ok(())
}

fn main(rt: HostRuntime) -> anyhow::Result<()> {
    for line in rt.lines(rt.alloc()) {
        show(&rt, &line?)?;
    }
    Ok(())
}
