// The calls of a script, one a line.
use anyhow::anyhow;
use machine::Call;
use std::fmt;
use std::str::FromStr;

// More places than any tick needs.
const PLACES: u8 = 17;

// A call as a line of a script spells it.
#[derive(Clone, Copy)]
pub(crate) struct Line(pub(crate) Call);

// The line spells no call.
#[derive(Clone, Copy)]
pub(crate) struct NoCall;

impl FromStr for Line {
    type Err = NoCall;

    fn from_str(line: &str) -> Result<Line, NoCall> {
        match line {
            "tick" => Ok(Line(Call::Tick { places: PLACES })),
            "return" => Ok(Line(Call::Return)),
            "mode" => Ok(Line(Call::Status)),
            _ => numbered(line).map(Line).ok_or(NoCall),
        }
    }
}

// A call with a number: a controller's or a row's.
fn numbered(line: &str) -> Option<Call> {
    let (word, digits) = line.split_once(' ')?;
    let number = digits.parse().ok()?;
    match word {
        "report" => Some(Call::Report { controller: number }),
        "strike" => Some(Call::Strike { controller: number }),
        "controller" => Some(Call::Controller { controller: number }),
        "row" => Some(Call::Row { row: number }),
        _ => None,
    }
}

impl fmt::Display for Line {
    fn fmt<W: fmt::Write>(&self, f: &mut fmt::Formatter<W>) -> fmt::Result {
        match self.0 {
            Call::Tick { places: _ } => write!(f, "tick"),
            Call::Report { controller } => write!(f, "report {controller}"),
            Call::Strike { controller } => write!(f, "strike {controller}"),
            Call::Return => write!(f, "return"),
            Call::Controller { controller } => write!(f, "controller {controller}"),
            Call::Row { row } => write!(f, "row {row}"),
            Call::Status => write!(f, "mode"),
        }
    }
}

// The call that a numbered line spells. A line that is no call is an error that names it.
fn call(number: usize, line: &str) -> anyhow::Result<Call> {
    let Line(call) = line
        .parse()
        .map_err(|_| anyhow!("line {number} is no call: {line}"))?;
    Ok(call)
}

// The calls of standard input.
pub(crate) fn read(rt: &HostRuntime) -> anyhow::Result<Vec<Call>> {
    (1..)
        .zip(rt.lines(rt.alloc()))
        .map(|(number, line)| call(number, line?.as_str()))
        .try_collect(rt.alloc())
}
