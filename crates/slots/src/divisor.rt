ghost use Rattle.std.specs.Int.{IsGcd};

// The greatest common divisor, by Euclid's rule.
pub fn gcd(a: u32, b: u32) -> u32
    ensures divisor { IsGcd a b result }
{
    if b == 0 { a } else { gcd(b, a % b) }
}
