// What planning answers to a sheet, beside what the search finds.
use crate::report::{Expected, RefusalText};
use crate::search::{Outcome, search};
use crate::sheets::Sheet;
use anyhow::bail;
use quotation::appendix_of;
use std::alloc::Global;
use std::str;
use tasks::Refusal;

// As many bytes as the longest appendix has: 64 rows.
const APPENDIX_BYTES: usize = 970;

// A sheet of which planning and search say the same, and what they say.
#[derive(Drop)]
pub(crate) struct Agreed {
    pub(crate) sheet: Sheet,
    pub(crate) outcome: Outcome,
}

// The appendix that planning writes, or the numbers of its refusal.
fn answer(alloc: Global, text: &str) -> anyhow::Result<String> {
    let mut lent = [0; APPENDIX_BYTES];
    match appendix_of(text.as_bytes(), &mut lent) {
        Ok(length) => {
            let appendix = str::from_utf8(&lent[..length])?;
            Ok(String::from_str(alloc, appendix)?)
        }
        Err(fault) => {
            let refusal = Refusal::from(fault);
            let numbers = RefusalText {
                number: refusal.number(),
                layer: refusal.layer_number(),
                row: refusal.place,
            };
            Ok(format!(in alloc; "{numbers}")?)
        }
    }
}

// An error where they differ, after both texts are printed.
pub(crate) fn agree(rt: &HostRuntime, text: &str) -> anyhow::Result<Agreed> {
    let sheet = Sheet::read(rt.alloc(), text)?;
    let outcome = search(rt.alloc(), &sheet)?;
    let expected = Expected {
        sheet: &sheet,
        outcome: &outcome,
    };
    let expected = format!(in rt.alloc(); "{expected}")?;
    let answered = answer(rt.alloc(), text)?;
    if answered != expected {
        println!(rt; "DIFFER\nsheet\n{text}answered\n{answered}expected\n{expected}")?;
        bail!("planning and search differ");
    }
    Ok(Agreed { sheet, outcome })
}
