// Reads a task sheet from standard input and prints the appendix of its plan, or the line of its refusal.
#![tactic(auto)]

use printout::{APPENDIX_BYTES, refusal_line};
use quotation::appendix_of;
use std::io;
use std::io::Read;

// More than any sheet that keeps the rules has.
const MOST_BYTES: u64 = 4096;

fn main(rt: HostRuntime) -> io::Result<()> {
    let mut sheet = Vec::new(rt.alloc());
    rt.stdin().take(MOST_BYTES).read_to_end(&mut sheet)?;
    let mut appendix = [0; APPENDIX_BYTES];
    match appendix_of(&sheet, &mut appendix) {
        Ok(length) => rt.write_all(&appendix[..length]),
        Err(fault) => rt.write_all(&refusal_line(&fault.into())),
    }
}
