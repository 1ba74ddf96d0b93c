ghost use Rattle.std.specs.Prelude.{◌≡◌, ◌*◌, ◌%◌, ◌≤◌, ◌≢◌, length, drop, slice_index, MatchResult, not};
ghost use Rattle.std.specs.List.{position};
ghost use Rattle.tasks.specs.declared.fault.FrameFault.TheVariants.{NoFrame};
ghost use Rattle.frames.specs.Frames.{Holds, digits_checked, framed, frame_of, shown};
ghost use Rattle.digits.specs.Digits.{byte_at, is_digit};
ghost use Rattle.frames.specs.Texts.{ReadsExactly};

use crate::decode::decode;
use crate::kind::Kind;
use digits::is_digit;
use tasks::{DigitFault, FrameFault};

// One line of a sheet, without its end; the first line is number 1.
#[derive(Clone, Copy)]
pub struct Line<'a> {
    pub number: usize,
    pub digits: &'a [u8],
}

// What a line is: each case but the close holds its own part of the line, the digits of its fields.
#[derive(Clone, Copy)]
pub enum Frame<'a> {
    Opening(&'a [u8; 4]),
    Row(&'a [u8; 20]),
    Close,
}

// The first byte that is no digit.
fn first_bad(digits: &[u8]) -> Option<usize>
    ensures value { result ≡ position (λ b. not (is_digit b)) digits.now }
{
    digits.iter().position(|b| !is_digit(*b))
}

impl<'a> Line<'a> {
    // The frame on the line: its digits are checked before its kind and its length.
    pub fn frame(self) -> Result<Frame<'a>, FrameFault>
        ensures value { shown result ≡ frame_of self.entry.number self.entry.digits.now }
        ensures held { Holds (drop 2 self.entry.digits.now) result }
        ensures exactly { ReadsExactly self.entry.digits.now (shown result) }
    {
        self.check_digits()?;
        self.decoded()
    }

    // The first byte that is no digit, then an odd count.
    fn check_digits(&self) -> Result<(), DigitFault>
        ensures value { result ≡ digits_checked self.now.number self.now.digits.now }
    {
        let line = self.number;
        if let Some(at) = first_bad(self.digits) {
            return Err(DigitFault::Bad {
                line,
                column: at + 1,
            });
        }
        let count = self.digits.len();
        if count % 2 == 1 {
            return Err(DigitFault::Odd {
                line,
                column: count + 1,
            });
        }
        Ok(())
    }

    // The frame, where the digits are good. The longest has eleven bytes, so no more are decoded, into
    // memory of a fixed size.
    fn decoded(self) -> Result<Frame<'a>, FrameFault>
        requires { length self.digits.now % 2 ≡ 0 }
        ensures value { shown result ≡ framed self.entry.number (byte_at self.entry.digits.now 0) (drop 2 self.entry.digits.now) }
        ensures held { Holds (drop 2 self.entry.digits.now) result }
    {
        let count = self.digits.len() / 2;
        if count > 11 {
            return Err(FrameFault::NoFrame { line: self.number });
        }
        let mut buffer = [0u8; 11];
        let bytes = &mut buffer[0..count];
        decode(self.digits, bytes);
        self.by_kind(bytes)
    }

    // The frame of these bytes: the first is the kind, the rest are the fields.
    fn by_kind(self, bytes: &[u8]) -> Result<Frame<'a>, FrameFault>
        requires { 2 * length bytes.now ≡ length self.digits.now }
        ensures value { shown result ≡ framed self.entry.number (slice_index bytes.now 0) (drop 2 self.entry.digits.now) }
        ensures held { Holds (drop 2 self.entry.digits.now) result }
    {
        let no_frame = FrameFault::NoFrame { line: self.number };
        let [kind, fields @ ..] = bytes else {
            return Err(no_frame);
        };
        match Kind::try_from(*kind) {
            Ok(Kind::Opening) => Ok(Frame::Opening(self.fields()?)),
            Ok(Kind::Row) => Ok(Frame::Row(self.fields()?)),
            Ok(Kind::Close) if fields.is_empty() => Ok(Frame::Close),
            // Two arms: tried with one pattern for both, and the proof does not close.
            Ok(Kind::Close) => Err(no_frame),
            Err(_) => Err(no_frame),
        }
    }

    // The digits of the fields, where there are as many as the kind has.
    fn fields<const N: usize>(self) -> Result<&'a [u8; N], FrameFault>
        requires { 2 ≤ length self.digits.now }
        ensures value { MatchResult result (λ own. (own.now ≡ drop 2 self.entry.digits.now) × (length (drop 2 self.entry.digits.now) ≡ N)) (λ fault. (fault ≡ NoFrame self.entry.number) × (length (drop 2 self.entry.digits.now) ≢ N)) }
    {
        <&[u8; N]>::try_from(&self.digits[2..]).map_err(|_| FrameFault::NoFrame {
            line: self.number,
        })
    }
}
