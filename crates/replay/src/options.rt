// What the command line asks for.
use anyhow::{Context, anyhow, bail};
use std::env;
use std::str::FromStr;

#[derive(Clone, Copy, Default)]
pub(crate) enum PolicyKind {
    #[default]
    Front,
    Round,
    Ends,
}

#[derive(Clone, Copy, Default)]
pub(crate) enum BenchKind {
    #[default]
    Slate,
    Register,
}

#[derive(Drop)]
pub(crate) struct Options {
    pub(crate) sheet: String,
    pub(crate) policy: PolicyKind,
    pub(crate) bench: BenchKind,
}

impl FromStr for PolicyKind {
    type Err = anyhow::Error;

    fn from_str(name: &str) -> anyhow::Result<PolicyKind> {
        match name {
            "front" => Ok(PolicyKind::Front),
            "round" => Ok(PolicyKind::Round),
            "ends" => Ok(PolicyKind::Ends),
            _ => Err(anyhow!("a policy is front, round or ends")),
        }
    }
}

impl FromStr for BenchKind {
    type Err = anyhow::Error;

    fn from_str(name: &str) -> anyhow::Result<BenchKind> {
        match name {
            "slate" => Ok(BenchKind::Slate),
            "register" => Ok(BenchKind::Register),
            _ => Err(anyhow!("a bench is slate or register")),
        }
    }
}

impl Options {
    pub(crate) fn read(rt: &HostRuntime) -> anyhow::Result<Options> {
        let mut args = env::args(rt)?.skip(1);
        let mut options = Options {
            sheet: args.next().context(
                "replay SHEET [--policy front|round|ends] [--bench slate|register]",
            )?,
            policy: PolicyKind::default(),
            bench: BenchKind::default(),
        };
        let settings: Vec<String> = args.collect(rt.alloc())?;
        for setting in settings.chunks(2) {
            let [name, value] = setting else {
                bail!("an option without its value");
            };
            options.set(name.as_str(), value.as_str())?;
        }
        Ok(options)
    }

    fn set(&mut self, name: &str, value: &str) -> anyhow::Result<()> {
        match name {
            "--policy" => self.policy = value.parse()?,
            "--bench" => self.bench = value.parse()?,
            _ => bail!("an option is --policy or --bench"),
        }
        Ok(())
    }
}
