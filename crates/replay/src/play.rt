// A sheet's tasks planned and run.
use crate::journal::Journal;
use crate::options::{BenchKind, PolicyKind};
use benches::{Bench, RegisterBench, Slate};
use control::Control;
use machine::Call;
use planner::Plan;
use policies::{Ends, Front, Policy, Round};
use printout::{APPENDIX_BYTES, refusal_line, write_appendix};
use runs::plan_and_run;
use std::io;
use tasks::Task;

// What is planned by which policy, on which kind of bench it runs, and which calls are sent then.
#[derive(Clone, Copy)]
pub(crate) struct Job<'a> {
    pub(crate) controllers: u8,
    pub(crate) tasks: &'a [Task],
    pub(crate) calls: &'a [Call],
    pub(crate) policy: PolicyKind,
    pub(crate) bench: BenchKind,
}

impl Job<'_> {
    // Plans and runs the tasks. The kinds are closed, and planning and control are generic: each kind is a call with its type.
    pub(crate) fn play(&self, rt: &HostRuntime) -> anyhow::Result<()> {
        match self.policy {
            PolicyKind::Front => self.play_by(rt, &mut Front::new(self.controllers)),
            PolicyKind::Round => self.play_by(rt, &mut Round::new(self.controllers)),
            PolicyKind::Ends => self.play_by(rt, &mut Ends::new(self.controllers)),
        }
    }

    fn play_by<P: Policy>(&self, rt: &HostRuntime, policy: &mut P) -> anyhow::Result<()> {
        match self.bench {
            BenchKind::Slate => self.play_on(rt, policy, Slate::new(self.controllers)),
            BenchKind::Register => {
                // The interlock, and a byte for each controller.
                let mut bytes = [0; 9];
                let shown = usize::from(self.controllers.min(8)) + 1;
                self.play_on(rt, policy, RegisterBench::new(&mut bytes[..shown]))
            }
        }
    }

    fn play_on<P: Policy, B: Bench + Drop>(
        &self,
        rt: &HostRuntime,
        policy: &mut P,
        bench: B,
    ) -> anyhow::Result<()> {
        let mut journal = Journal::new(rt.alloc(), self)?;
        let mut plan = Plan::new();
        let mut control = Control::new(bench);
        match plan_and_run(
            self.controllers,
            self.tasks,
            policy,
            &mut plan,
            &mut control,
            &journal.calls,
            &mut journal.entries,
        ) {
            Ok(_sent) => {
                print_appendix(rt, &plan)?;
                rt.print(journal)?;
            }
            Err(fault) => rt.write_all(&refusal_line(&fault.into()))?,
        }
        Ok(())
    }
}

fn print_appendix(rt: &impl Print, plan: &Plan) -> io::Result<()> {
    let mut appendix = [0; APPENDIX_BYTES];
    match write_appendix(plan, &mut appendix) {
        Ok(length) => rt.write_all(&appendix[..length]),
        Err(fault) => rt.write_all(&refusal_line(&fault.into())),
    }
}
