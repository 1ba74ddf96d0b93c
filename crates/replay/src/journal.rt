// The calls of a run with their answers, and what they come to for each row.
use crate::answer::AnswerText;
use crate::play::Job;
use crate::script::Line;
use machine::{Call, Counts, Entry, Reply};
use std::alloc::{AllocError, Global};
use std::fmt;

// The calls of the script, then a question for the counts of each row, and one for each controller; and their entries. They stand in two
// lists, since a run reads the calls while it writes the entries.
#[derive(Drop)]
pub(crate) struct Journal {
    pub(crate) calls: Vec<Call>,
    pub(crate) entries: Vec<Entry>,
    // How many calls are the script's.
    script: usize,
}

impl Journal {
    // The entries are to be written by a run.
    pub(crate) fn new(heap: Global, job: &Job<'_>) -> Result<Journal, AllocError> {
        let script = job.calls.iter().copied();
        let rows = (0..).zip(job.tasks).map(|(row, _task)| Call::Row { row });
        let controllers = (0..job.controllers).map(|controller| Call::Controller { controller });
        let calls: Vec<Call> = script.chain(rows).chain(controllers).collect(heap)?;
        // What stands in a place that a run is to write. By hand: an entry has no default, since no call is one.
        let unsent = Entry {
            call: Call::Status,
            answer: Ok(Reply::Done),
        };
        let entries = vec![in heap; unsent; calls.len()]?;
        Ok(Journal {
            calls,
            entries,
            script: job.calls.len(),
        })
    }

    // The entries after the script's. A slice and no `skip`, which walks past each call of the script.
    fn questions(&self) -> &[Entry] {
        &self.entries[self.script.min(self.entries.len())..]
    }

    // How many controllers are busy with the row.
    fn running(&self, row: u8) -> usize {
        self.questions()
            .iter()
            .filter(|entry| matches!(entry.answer, Ok(Reply::Shown(Some(shown))) if shown == row))
            .count()
    }

    // What was started, reported and cut of each row, and what is running.
    fn write_rows<W: fmt::Write>(&self, f: &mut fmt::Formatter<W>) -> fmt::Result {
        for entry in self.questions() {
            if let (Call::Row { row }, Ok(Reply::Counted(counts))) = (entry.call, entry.answer) {
                let Counts {
                    starts,
                    reports,
                    cuts,
                } = counts;
                let running = self.running(row);
                writeln!(
                    f,
                    "row {row} started {starts} reported {reports} cut {cuts} running {running}"
                )?;
            }
        }
        Ok(())
    }
}

// A line for each call of the script, and one for each row.
impl fmt::Display for Journal {
    fn fmt<W: fmt::Write>(&self, f: &mut fmt::Formatter<W>) -> fmt::Result {
        for entry in self.entries.iter().take(self.script) {
            writeln!(f, "{} = {}", Line(entry.call), AnswerText(&entry.answer))?;
        }
        self.write_rows(f)
    }
}
