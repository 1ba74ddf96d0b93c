// Digits into bytes, two to a byte.
ghost use Rattle.std.specs.Prelude.{◌≡◌, ℕ, ◌*◌, ◌<◌, ◌≤◌, length, slice_index};
ghost use Rattle.digits.specs.Digits.{byte_at};

use digits::byte;

// Fills the bytes from the digits.
pub(crate) fn decode(digits: &[u8], bytes: &mut [u8])
    requires { 2 * length bytes.old ≤ length digits.now }
    ensures each { (k : ℕ) → k < length bytes.new → slice_index bytes.new k ≡ byte_at digits.now k }
{
    // The digits by index: of what is written through a `zip` with `chunks_exact(2)` nothing is known.
    for (k, b) in bytes.iter_mut().enumerate() {
        *b = byte(digits[2 * k], digits[2 * k + 1]);
    }
}
