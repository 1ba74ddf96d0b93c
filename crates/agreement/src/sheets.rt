// A task sheet as the search has it: read from the sheet's text, and written as one. Nothing here is the planner's.
ghost use Rattle.std.specs.Prelude.{◌≡◌, ◌%◌, ◌≤◌, All, IfSome};

use anyhow::{Context, bail};
use std::alloc::Global;
use std::fmt;

// The longest common period that is searched, in ticks.
const LONGEST: usize = 20_000;

#[derive(Clone, Copy)]
pub(crate) struct Task {
    pub(crate) id: usize,
    pub(crate) period: usize,
    pub(crate) deadline: usize,
    pub(crate) everyday_budget: usize,
    // Of a critical task.
    pub(crate) critical_budget: Option<usize>,
    ghost comes_again: { 1 ≤ period },
}

#[derive(Drop)]
pub(crate) struct Sheet {
    pub(crate) controllers: usize,
    pub(crate) tasks: Vec<Task>,
}

// What is left of a line.
#[derive(Drop)]
struct Digits<'a>(&'a str);

impl Digits<'_> {
    // The number that the next so many digits spell.
    fn number(&mut self, count: usize) -> Option<usize> {
        let (digits, rest) = self.0.split_at_checked(count)?;
        self.0 = rest;
        usize::from_str_radix(digits, 16).ok()
    }
}

impl Task {
    // The task of a line without its kind.
    fn read(line: &str) -> Option<Task> {
        let mut digits = Digits(line);
        let id = digits.number(2)?;
        let level = digits.number(2)?;
        let period = digits.number(4)?;
        let deadline = digits.number(4)?;
        let everyday_budget = digits.number(4)?;
        let critical_budget = digits.number(4)?;
        if period == 0 {
            return None;
        }
        Some(Task {
            id,
            period,
            deadline,
            everyday_budget,
            critical_budget: (level == 1).then_some(critical_budget),
        })
    }
}

impl Sheet {
    // Asks less than a sheet's rules: whether they are kept shows in what planning answers.
    pub(crate) fn read(alloc: Global, text: &str) -> anyhow::Result<Sheet> {
        let mut lines = text.lines();
        let opening = lines.next().context("an empty sheet")?;
        let mut digits = Digits(opening);
        let (Some(1), Some(controllers)) = (digits.number(2), digits.number(2)) else {
            bail!("a sheet without its opening");
        };
        let mut tasks = Vec::new(alloc);
        for line in lines {
            if let Some(fields) = line.strip_prefix("02") {
                tasks.push(Task::read(fields).context("a task that cannot be read")?)?;
            }
        }
        Ok(Sheet { controllers, tasks })
    }

    // The least number of ticks after which all tasks begin a period together; none where it passes the longest.
    pub(crate) fn common_period(&self) -> Option<usize>
        ensures common { IfSome result (λ ticks. All (λ task. ticks % task.period ≡ 0) self.now.tasks.items) }
        ensures bound { IfSome result (λ ticks. ticks ≤ LONGEST) }
    {
        (1..=LONGEST).find(|ticks| {
            self.tasks
                .iter()
                .all(|task| ticks.is_multiple_of(task.period))
        })
    }
}

impl fmt::Display for Task {
    fn fmt<W: fmt::Write>(&self, f: &mut fmt::Formatter<W>) -> fmt::Result {
        let Task {
            id,
            period,
            deadline,
            everyday_budget,
            critical_budget,
        } = *self;
        let level = u8::from(critical_budget.is_some());
        let critical_budget = critical_budget.unwrap_or(0);
        writeln!(
            f,
            "02{id:02X}{level:02X}{period:04X}{deadline:04X}{everyday_budget:04X}{critical_budget:04X}"
        )
    }
}

impl fmt::Display for Sheet {
    fn fmt<W: fmt::Write>(&self, f: &mut fmt::Formatter<W>) -> fmt::Result {
        writeln!(f, "01{:02X}{:02X}", self.controllers, self.tasks.len())?;
        for task in &self.tasks {
            write!(f, "{task}")?;
        }
        writeln!(f, "03")
    }
}
