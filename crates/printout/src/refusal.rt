ghost use Rattle.std.specs.Prelude.{◌≡◌};
ghost use Rattle.tasks.specs.Refusals.{layer_number, reason_number};
ghost use Rattle.printout.specs.Texts.{ReadsBack, refusal_text};

use crate::kind::Kind;
use crate::line::{put_line, two_bytes};
use tasks::Refusal;

// The line of a refusal. Two bytes hold every place below 65536, and no refusal of a sheet has a place above 67.
pub fn refusal_line(refusal: &Refusal) -> [u8; 11]
    ensures value { result ≡ refusal_text (reason_number refusal.now.reason) (layer_number refusal.now.layer) refusal.now.place }
    ensures reads_back { ReadsBack (reason_number refusal.now.reason) (layer_number refusal.now.layer) refusal.now.place result }
{
    numbered_line(refusal.number(), refusal.layer_number(), refusal.place)
}

// The line of a refusal by its numbers. They are bytes, since its two promises hold over any, also those that no reason has.
pub fn numbered_line(number: u8, layer: u8, place: usize) -> [u8; 11]
    ensures value { result ≡ refusal_text number layer place }
    ensures reads_back { ReadsBack number layer place result }
{
    let [high, low] = two_bytes((place % 65_536) as u16);
    let mut line = [0u8; 11];
    put_line(&[Kind::Refusal as u8, number, layer, high, low], &mut line);
    line
}
