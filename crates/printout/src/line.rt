// Bytes as a line of digits.
ghost use Rattle.std.specs.Prelude.{◌≡◌, ◌+◌, ◌*◌, ◌≤◌, ◌++◌, length, drop};
ghost use Rattle.digits.specs.Digits.{two_bytes};
ghost use Rattle.printout.specs.Texts.{line_of};

use digits::print_byte;

// A number as two bytes, the high one first.
pub(crate) fn two_bytes(number: u16) -> [u8; 2]
    ensures value { result ≡ two_bytes number }
{
    number.to_be_bytes()
}

// Writes the line of the bytes at the beginning of these places.
pub(crate) fn put_line(bytes: &[u8], out: &mut [u8])
    requires { 2 * length bytes.now + 1 ≤ length out.old }
    ensures after { out.new ≡ line_of bytes.now ++ drop (2 * length bytes.now + 1) out.old }
{
    // By index: tried with `chunks_exact_mut(2).zip(bytes)`, and the proof does not close, since of what is written through it
    // nothing is known.
    for (i, b) in bytes.iter().enumerate() {
        let [high, low] = print_byte(*b);
        out[2 * i] = high;
        out[2 * i + 1] = low;
    }
    out[2 * bytes.len()] = b'\n';
}
