// What the command line asks for.
use crate::course::{Course, Way};
use anyhow::{Context, anyhow, bail};
use std::env;
use std::str::FromStr;

#[derive(Drop)]
pub(crate) struct Options {
    pub(crate) sheet: String,
    pub(crate) courses: Vec<Course>,
}

impl FromStr for Way {
    type Err = anyhow::Error;

    fn from_str(name: &str) -> anyhow::Result<Way> {
        match name {
            "quiet" => Ok(Way::Quiet),
            "reported" => Ok(Way::Reported),
            _ => Err(anyhow!("a way is quiet or reported")),
        }
    }
}

// A way and a number of ticks.
fn course(words: &[String]) -> anyhow::Result<Course> {
    let [way, ticks] = words else {
        bail!("a way without its ticks");
    };
    Ok(Course {
        way: way.as_str().parse()?,
        ticks: ticks.as_str().parse()?,
    })
}

impl Options {
    pub(crate) fn read(rt: &HostRuntime) -> anyhow::Result<Options> {
        let mut args = env::args(rt)?.skip(1);
        let sheet = args
            .next()
            .context("ticking SHEET [quiet|reported TICKS]..")?;
        let words: Vec<String> = args.collect(rt.alloc())?;
        let courses = words.chunks(2).map(course).try_collect(rt.alloc())?;
        Ok(Options { sheet, courses })
    }
}
