// Answers as text.
use machine::{Answer, Event, Reply, Standing, Written};
use std::fmt;
use tasks::Mode;

// An answer as the journal shows it: `ok` and what is told, or `no` and the numbers of the refusal.
#[derive(Clone, Copy)]
pub(crate) struct AnswerText<'a>(pub(crate) &'a Answer);

// What is told of an accepted call, with a space before each part.
#[derive(Clone, Copy)]
struct ReplyText<'a>(&'a Reply);

// The events of a tick, with a space before each.
#[derive(Clone, Copy)]
struct EventsText<'a>(&'a Written);

// The mode of a control and where it stands.
#[derive(Clone, Copy)]
struct StandingText<'a>(&'a Standing);

// A controller or a row, or - for none.
#[derive(Clone, Copy)]
struct NumberText(Option<u8>);

impl fmt::Display for AnswerText<'_> {
    fn fmt<W: fmt::Write>(&self, f: &mut fmt::Formatter<W>) -> fmt::Result {
        match self.0 {
            Ok(reply) => write!(f, "ok{}", ReplyText(reply)),
            Err(refusal) => {
                let number = refusal.number();
                let layer = refusal.layer_number();
                write!(f, "no {number} {layer} {}", refusal.place)
            }
        }
    }
}

impl fmt::Display for ReplyText<'_> {
    fn fmt<W: fmt::Write>(&self, f: &mut fmt::Formatter<W>) -> fmt::Result {
        match self.0 {
            Reply::Ticked(written) => write!(f, "{}", EventsText(written)),
            Reply::Done => Ok(()),
            Reply::Shown(row) => write!(f, " {}", NumberText(*row)),
            Reply::Counted(counts) => {
                write!(f, " {} {} {}", counts.starts, counts.reports, counts.cuts)
            }
            Reply::Stood(standing) => write!(f, " {}", StandingText(standing)),
        }
    }
}

impl fmt::Display for EventsText<'_> {
    fn fmt<W: fmt::Write>(&self, f: &mut fmt::Formatter<W>) -> fmt::Result {
        for event in self.0.events.iter().take(usize::from(self.0.count)) {
            match event {
                Event::Switch => write!(f, " switch")?,
                Event::Cut { controller, row } => write!(f, " cut {controller} {row}")?,
                Event::Start { controller, row } => write!(f, " start {controller} {row}")?,
            }
        }
        Ok(())
    }
}

impl fmt::Display for StandingText<'_> {
    fn fmt<W: fmt::Write>(&self, f: &mut fmt::Formatter<W>) -> fmt::Result {
        let Standing {
            mode,
            opening,
            next,
            busy,
            lowest,
        } = *self.0;
        let mode = match mode {
            Mode::Everyday => "everyday",
            Mode::Critical => "critical",
        };
        write!(f, "{mode} {opening} {next} {busy} {}", NumberText(lowest))
    }
}

impl fmt::Display for NumberText {
    fn fmt<W: fmt::Write>(&self, f: &mut fmt::Formatter<W>) -> fmt::Result {
        match self.0 {
            Some(number) => write!(f, "{number}"),
            None => write!(f, "-"),
        }
    }
}
