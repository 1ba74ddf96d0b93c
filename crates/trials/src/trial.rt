// What the examples are made of.
ghost use Rattle.std.specs.Prelude.{◌≡◌, ◌≤◌, Ok};
ghost use Rattle.machine.specs.Entries.{entry, written};
ghost use Rattle.machine.specs.declared.entry.Call.TheVariants.{Tick};
ghost use Rattle.machine.specs.declared.entry.Reply.TheVariants.{Ticked};
ghost use Rattle.machine.specs.declared.event.Event.TheVariants.{Cut, Start};
ghost use Rattle.trials.specs.Rows.{alone, critical, due_by, everyday, row};

use machine::{Call, Entry, Event, Reply, Written};
use planner::{NO_START, Row};
use tasks::{PerMode, Task};

// Rows placed one after the other, and a task that no controller takes after them: planning stops at this row.
#[derive(Clone, Copy)]
pub struct Stuck<const N: usize> {
    pub placed: [Row; N],
    pub task: Task,
    pub row: usize,
}

// The rows of a plan, and the history of ticks that run it.
#[derive(Clone, Copy)]
pub struct Run<const N: usize, const K: usize> {
    pub rows: [Row; N],
    pub ticks: [Entry; K],
}

// A plan with no rows: how many controllers it may have, and how many ticks in a row do nothing.
#[derive(Clone, Copy)]
pub struct Quiet {
    pub controllers: u8,
    pub ticks: u64,
}

// An everyday task.
pub(crate) fn due_by(id: u8, period: u16, deadline: u16, budget: u16) -> Task
    ensures value { result ≡ due_by id period deadline budget }
{
    Task {
        id,
        level: 0,
        period,
        deadline,
        budgets: PerMode {
            everyday: budget,
            critical: 0,
        },
    }
}

// An everyday task that may end with its period.
pub(crate) fn everyday(id: u8, period: u16, budget: u16) -> Task
    ensures value { result ≡ everyday id period budget }
{
    due_by(id, period, period, budget)
}

// A critical task, with its two budgets.
pub(crate) fn critical(id: u8, period: u16, deadline: u16, budgets: [u16; 2]) -> Task
    ensures value { result ≡ critical id period deadline budgets }
{
    let [everyday, critical] = budgets;
    Task {
        id,
        level: 1,
        period,
        deadline,
        budgets: PerMode { everyday, critical },
    }
}

// A task on a controller, with its starts.
pub(crate) fn row(task: Task, controller: u8, starts: [u16; 2]) -> Row
    ensures value { result ≡ row task controller starts }
{
    let [everyday, critical] = starts;
    Row {
        task,
        controller,
        starts: PerMode { everyday, critical },
    }
}

// An everyday task on the only controller there is, with its start.
pub(crate) fn alone(task: Task, start: u16) -> Row
    ensures value { result ≡ alone task start }
{
    row(task, 0, [start, NO_START])
}

pub(crate) fn no_room<const N: usize>(placed: [Row; N], task: Task, row: usize) -> Stuck<N>
    ensures placed { result.placed ≡ placed.entry }
    ensures task { result.task ≡ task }
    ensures row { result.row ≡ row }
{
    Stuck { placed, task, row }
}

pub(crate) fn idle(controllers: u8, ticks: u64) -> Quiet
    ensures controllers { result.controllers ≡ controllers }
    ensures ticks { result.ticks ≡ ticks }
{
    Quiet { controllers, ticks }
}

pub(crate) fn start(controller: u8, row: u8) -> Event
    ensures value { result ≡ Start controller row }
{
    Event::Start { controller, row }
}

pub(crate) fn cut(controller: u8, row: u8) -> Event
    ensures value { result ≡ Cut controller row }
{
    Event::Cut { controller, row }
}

// A tick with these events.
pub(crate) fn tick<const N: usize>(places: u8, events: [Event; N]) -> Entry
    requires few { N ≤ 17 }
    ensures value { result ≡ entry (Tick places) (Ok (Ticked (written events.entry))) }
{
    let mut all = [Event::Switch; 17];
    all[..N].copy_from_slice(&events);
    Entry {
        call: Call::Tick { places },
        answer: Ok(Reply::Ticked(Written {
            count: N as u8,
            events: all,
        })),
    }
}
