// The same call with the answer as one number, which `quotation_c` offers to host programs in C.
ghost use Rattle.std.specs.Prelude.{◌≡◌, ℕ, Result as Answer};
ghost use Rattle.tasks.specs.declared.fault.AppendixFault.{AppendixFault as Fault};
ghost use Rattle.quotation.specs.Quotations.{Only, Quoted, code_of};

use crate::appendix_of;
use tasks::Refusal;

// The length written, or the number of the refusal as a negative number.
pub fn jostagalley_appendix(sheet: &[u8], appendix: &mut [u8]) -> i64
    ensures quoted { (answer : Answer ℕ Fault) × Quoted sheet.now appendix.old answer appendix.new × Only sheet.now appendix.old answer appendix.new × (result ≡ code_of answer) }
{
    match appendix_of(sheet, appendix) {
        Ok(length) => length as i64,
        Err(fault) => -i64::from(Refusal::from(fault).number()),
    }
}
