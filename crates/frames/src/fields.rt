// The fields of a frame, from the digits that its case borrows.
ghost use Rattle.std.specs.Prelude.{◌≡◌, ◌+◌, ◌*◌};
ghost use Rattle.frames.specs.Frames.{task_of};
ghost use Rattle.digits.specs.Digits.{byte_at};

use crate::decode::decode;
use tasks::{PerMode, Task};

// Two bytes as one number, the high byte first.
fn word(high: u8, low: u8) -> u16
    ensures value { result ≡ 256 * high + low }
{
    u16::from_be_bytes([high, low])
}

// The count of controllers and the number of tasks.
pub fn opening_fields(digits: &[u8; 4]) -> (u8, u8)
    ensures controllers { result.0 ≡ byte_at digits.now 0 }
    ensures tasks { result.1 ≡ byte_at digits.now 1 }
{
    let mut bytes = [0u8; 2];
    decode(digits, &mut bytes);
    let [m, tasks] = bytes;
    (m, tasks)
}

// The task that a task frame tells.
pub fn task_fields(digits: &[u8; 20]) -> Task
    ensures value { result ≡ task_of digits.now }
{
    // A second buffer: one function for both, over the length, was tried, and the host's planning is a seventh slower with it.
    let mut bytes = [0u8; 10];
    decode(digits, &mut bytes);
    let [id, level, t, u, d, e, v, w, c, x] = bytes;
    Task {
        id,
        level,
        period: word(t, u),
        deadline: word(d, e),
        budgets: PerMode {
            everyday: word(v, w),
            critical: word(c, x),
        },
    }
}
