// The planning call of `quotation`, for a host program in C: host/jostagalley.h declares it.
#![tactic(auto)]

ghost use Rattle.std.specs.Prelude.{◌≡◌, ℕ, Result as Answer};
ghost use Rattle.tasks.specs.declared.fault.AppendixFault.{AppendixFault as Fault};
ghost use Rattle.quotation.specs.Quotations.{Only, Quoted, code_of};

// The length written, or the number of the refusal as a negative number.
#[unsafe(no_mangle)]
pub extern "C" fn jostagalley_appendix(sheet: &[u8], appendix: &mut [u8]) -> i64
    ensures quoted { (answer : Answer ℕ Fault) × Quoted sheet.now appendix.old answer appendix.new × Only sheet.now appendix.old answer appendix.new × (result ≡ code_of answer) }
{
    quotation::jostagalley_appendix(sheet, appendix)
}
