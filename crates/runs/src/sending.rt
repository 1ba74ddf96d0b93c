// One call sent through the control's own methods.
ghost use Rattle.std.specs.Prelude.{◌≡◌, length};
ghost use Rattle.machine.specs.Machine.{answer, tick_answer};
ghost use Rattle.machine.specs.declared.entry.Call.TheVariants.{Tick};
ghost use Rattle.control.specs.Calls.{Steps, counted};
ghost use Rattle.control.specs.States.{state_of};
ghost use Rattle.runs.specs.Runs.{places_after};

use benches::Bench;
use control::Control;
use machine::{Answer, Call, Event, Reply, Written};
use records::Records;
use tasks::ControlFault;

// A tick into lent places.
fn tick_into<B: Bench>(
    control: &mut Control<B>,
    events: &mut [Event],
) -> Result<usize, ControlFault>
    ensures answer { result ≡ counted (tick_answer (state_of B.Bench.meaning control.old) (length events.old)) }
    ensures steps { Steps B.Bench.meaning B.Bench.fixed control.old control.new (Tick (length events.old)) }
    ensures written { events.new ≡ places_after (tick_answer (state_of B.Bench.meaning control.old) (length events.old)) events.old }
{
    let mut list = Records::new(events);
    control.tick(&mut list)
}

// A tick with so many places for its events. No tick writes more than 17.
fn tick<B: Bench>(control: &mut Control<B>, places: u8) -> Answer
    ensures answer { result ≡ answer (state_of B.Bench.meaning control.old) (Tick places) }
    ensures steps { Steps B.Bench.meaning B.Bench.fixed control.old control.new (Tick places) }
{
    let mut events = [Event::Switch; 17];
    let lent = usize::from(places).min(17);
    let count = tick_into(control, &mut events[..lent])?;
    Ok(Reply::Ticked(Written {
        count: count as u8,
        events,
    }))
}

// What the control answers to the call.
pub fn send<B: Bench>(control: &mut Control<B>, call: Call) -> Answer
    ensures answer { result ≡ answer (state_of B.Bench.meaning control.old) call }
    ensures steps { Steps B.Bench.meaning B.Bench.fixed control.old control.new call }
{
    match call {
        Call::Tick { places } => tick(control, places),
        Call::Report { controller } => {
            control.report(controller)?;
            Ok(Reply::Done)
        }
        Call::Strike { controller } => {
            control.strike(controller)?;
            Ok(Reply::Done)
        }
        Call::Return => {
            control.return_to_everyday()?;
            Ok(Reply::Done)
        }
        Call::Controller { controller } => Ok(Reply::Shown(control.controller(controller)?)),
        Call::Row { row } => Ok(Reply::Counted(control.row(row)?)),
        Call::Status => Ok(Reply::Stood(control.standing()?)),
    }
}
