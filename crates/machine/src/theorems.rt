// What is proved of the machine. Each of these calls does nothing; its contract is the theorem.
ghost use Rattle.machine.specs.Theorems.{EveryRunKeepsTheLaws, LawsLeaveNothingOpen};

// Every history that the machine writes from an accepted load keeps the laws.
pub fn runs_keep_the_laws()
    ensures theorem { EveryRunKeepsTheLaws }
{}

// A history that keeps the laws is the machine's.
pub fn laws_leave_nothing_open()
    ensures theorem { LawsLeaveNothingOpen }
{}
