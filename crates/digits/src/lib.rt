// Digits in base sixteen, as sheets and appendices write them.
#![tactic(auto)]

ghost use Rattle.std.specs.Prelude.{◌≡◌, ℕ, ◌<◌, ◌↔◌, Some, slice_index};
ghost use Rattle.digits.specs.Digits.{byte_of, chart, digit as digit_of, is_digit, printed, two_digits};

// The value of a byte that is a digit; none for any other byte.
pub fn digit(b: u8) -> Option<u8>
    ensures value { result ≡ digit_of b }
    ensures charted { (v : ℕ) → (result ≡ Some v) ↔ ((v < 16) × (slice_index chart v ≡ b)) }
{
    match b {
        b'0'..=b'9' => Some(b - b'0'),
        b'A'..=b'F' => Some(b - b'A' + 10),
        _ => None,
    }
}

// Whether a byte is a digit.
pub fn is_digit(b: u8) -> bool
    ensures value { result ≡ is_digit b }
{
    digit(b).is_some()
}

// The byte that two digits stand for, the high one first; a byte that is no digit counts 0.
pub fn byte(high: u8, low: u8) -> u8
    ensures value { result ≡ byte_of high low }
{
    16 * digit(high).unwrap_or(0) + digit(low).unwrap_or(0)
}

// By hand: the kit's `hex` writes capitals only on the heap.
fn print_digit(v: u8) -> u8
    requires { v < 16 }
    ensures value { result ≡ printed v }
{
    if v < 10 { b'0' + v } else { b'A' - 10 + v }
}

// The two digits of a byte, which read back as that byte.
pub fn print_byte(b: u8) -> [u8; 2]
    ensures value { result ≡ two_digits b }
    ensures reads_back { byte_of (slice_index result 0) (slice_index result 1) ≡ b }
{
    [print_digit(b / 16), print_digit(b % 16)]
}
