// Reads the table of sheets in `stdin` and prints the appendix or the refusal of each; `stdout` holds what should come.
// A row is BYTES NAME: SHEET, where BYTES are lent for the appendix and / stands for the end of a line.
// sheet_cases reads its rows alike. What of that needs the heap can be in no library crate here, and the rest is two `split_once`.
#![tactic(auto)]

use anyhow::Context;
use printout::{APPENDIX_BYTES, refusal_line};
use quotation::appendix_of;
use std::str;

// The length or the refusal, and then the bytes that were lent, where / stands for the end of a line.
fn print_outcome(rt: &HostRuntime, sheet: &[u8], room: usize) -> anyhow::Result<()> {
    let mut lent = [b'-'; APPENDIX_BYTES];
    let out = &mut lent[..room.min(APPENDIX_BYTES)];
    match appendix_of(sheet, out) {
        Ok(length) => print!(rt; "{length} bytes ")?,
        Err(fault) => {
            let line = refusal_line(&fault.into());
            print!(rt; "{} ", str::from_utf8(&line)?.trim_end())?;
        }
    }
    let shown = str::from_utf8(out)?.replace(rt.alloc(), '\n', "/")?;
    println!(rt; "{shown}")?;
    Ok(())
}

fn show(rt: &HostRuntime, row: &str) -> anyhow::Result<()> {
    let (room, rest) = row.split_once(' ').context("a row without room")?;
    let (_name, text) = rest.split_once(": ").context("a row without a sheet")?;
    let sheet = text.replace(rt.alloc(), '/', "\n")?;
    print!(rt; "{row} -> ")?;
    print_outcome(rt, sheet.as_bytes(), room.parse()?)
}

fn main(rt: HostRuntime) -> anyhow::Result<()> {
    for line in rt.lines(rt.alloc()) {
        show(&rt, &line?)?;
    }
    Ok(())
}
