ghost use Rattle.std.specs.Prelude.{◌≡◌, ◌==◌};
ghost use Rattle.std.specs.List.{position};
ghost use Rattle.sheet.specs.Lines.{lines, next_line, next_told};
ghost use Rattle.sheet.specs.Walk.{Moved, left, shown_line, shown_frame};

use crate::reader::Reader;
use frames::{Frame, Line};
use tasks::{DigitFault, FrameFault};

// Where the first end of a line stands.
fn end_of_line(bytes: &[u8]) -> Option<usize>
    ensures value { result ≡ position (λ b. b == 10) bytes.now }
{
    bytes.iter().position(|b| *b == b'\n')
}

impl<'a> Reader<'a> {
    pub(crate) fn new(bytes: &'a [u8]) -> Reader<'a>
        ensures left { left result ≡ lines bytes.now }
        ensures sheet { result.bytes ≡ bytes.entry }
        ensures place { result.place ≡ 0 }
        ensures line { result.line ≡ 0 }
    {
        Reader {
            bytes,
            place: 0,
            line: 0,
        }
    }

    // The next line, if there is one.
    pub(crate) fn next_line(&mut self) -> Result<Option<Line<'a>>, DigitFault>
        ensures value { shown_line result ≡ next_line self.old.line (left self.old) }
        ensures moved { Moved self.old self.new }
    {
        let bytes = self.bytes;
        let rest = &bytes[self.place..];
        match end_of_line(rest) {
            Some(length) => {
                self.place += length + 1;
                self.line += 1;
                Ok(Some(Line {
                    number: self.line,
                    digits: &rest[0..length],
                }))
            }
            None if rest.is_empty() => Ok(None),
            None => Err(DigitFault::Unended {
                line: self.line + 1,
            }),
        }
    }

    // The frame on the next line, if there is one.
    pub(crate) fn next_frame(&mut self) -> Result<Option<Frame<'a>>, FrameFault>
        ensures value { shown_frame result ≡ next_told self.old.line (left self.old) }
        ensures moved { Moved self.old self.new }
    {
        // A match: with `transpose` the whole way from a sheet to its appendix takes a seventh longer.
        match self.next_line()? {
            Some(line) => Ok(Some(line.frame()?)),
            None => Ok(None),
        }
    }
}
