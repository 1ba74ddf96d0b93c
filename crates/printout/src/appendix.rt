ghost use Rattle.std.specs.Prelude.{◌≡◌, ◌+◌, ◌*◌, ◌≤◌, ◌++◌, length, drop, IfOk};
ghost use Rattle.planner.specs.Plans.{rows_of};
ghost use Rattle.printout.specs.Texts.{TextsTellQuotes, Wrote, appendix_text, row_text};
ghost use Rattle.std.specs.List.{flat_map};

use crate::kind::Kind;
use crate::line::{put_line, two_bytes};
use planner::{Plan, Row};
use tasks::AppendixFault;

// As many bytes as the appendix of 64 tasks needs.
pub const APPENDIX_BYTES: usize = 970;

// The bytes of the line of a row.
const ROW_BYTES: usize = 15;

// The bytes of the opening and of the close.
const OPENING_BYTES: usize = 7;

const CLOSE_BYTES: usize = 3;

// Writes the line of a row at the beginning of these places.
fn put_row(row: &Row, out: &mut [u8])
    requires { 15 ≤ length out.old }
    ensures after { out.new ≡ row_text row.now ++ drop 15 out.old }
{
    let [everyday, everyday_low] = two_bytes(row.starts.everyday);
    let [critical, critical_low] = two_bytes(row.starts.critical);
    let bytes = [
        Kind::Row as u8,
        row.task.id,
        row.controller,
        everyday,
        everyday_low,
        critical,
        critical_low,
    ];
    put_line(&bytes, out);
}

// Writes the lines of the rows at the beginning of these places.
fn put_rows(rows: &[Row], out: &mut [u8])
    requires { 15 * length rows.now ≤ length out.old }
    ensures after { out.new ≡ flat_map row_text rows.now ++ drop (15 * length rows.now) out.old }
{
    // By index: tried with `chunks_exact_mut(ROW_BYTES).zip(rows)`, and the proof does not close, since of what is written
    // through it nothing is known.
    for (i, row) in rows.iter().enumerate() {
        put_row(row, &mut out[ROW_BYTES * i..]);
    }
}

// Writes the appendix of a plan at the beginning of the bytes and answers its length, or refuses when they are too few.
pub fn write_appendix(plan: &Plan, out: &mut [u8]) -> Result<usize, AppendixFault>
    ensures wrote { Wrote (appendix_text plan.now.controllers (rows_of plan.now)) out.old result out.new }
    ensures bound { IfOk result (λ n. n ≤ 970) }
    ensures longest { APPENDIX_BYTES ≡ 7 + 15 * 64 + 3 }
    ensures telling { TextsTellQuotes }
{
    let rows = plan.rows();
    let length = OPENING_BYTES + ROW_BYTES * rows.len() + CLOSE_BYTES;
    if out.len() < length {
        return Err(AppendixFault::Places);
    }
    put_line(
        &[Kind::Opening as u8, plan.controllers(), rows.len() as u8],
        out,
    );
    put_rows(rows, &mut out[OPENING_BYTES..]);
    put_line(&[Kind::Close as u8], &mut out[length - CLOSE_BYTES..]);
    Ok(length)
}
