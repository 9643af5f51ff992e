// Format 6: a register or a pair of registers by a count, 1 to 16.
ghost use Rattle.std.specs.Prelude.{◌≡◌};
ghost use Rattle.shift.specs.Shifted.{single_of, double_of};

use super::BitsAndC;
use super::shifted::{leave, leave_pair, look, n_bit};
use super::turning::shift;
use opcodes::Way;
use wordmath::{Done, Flags, Pair};

// SSRR, SSLR, SSRA, SSLA
pub fn single(way: Way, count: u16, x: u16, f: Flags) -> Done
    ensures { result ≡ single_of way count x f }
{
    let k = n_bit(16, way);
    let t = shift(
        16,
        way,
        count,
        BitsAndC {
            x: u32::from(x),
            c: f.c,
        },
    );
    leave(k, t)
}

// SDRR, SDLR, SDRA, SDLA
pub fn double(way: Way, count: u16, low: u16, high: u16, f: Flags) -> Pair
    ensures { result ≡ double_of way count low high f }
{
    let k = n_bit(16, way);
    let t = shift(
        32,
        way,
        count,
        BitsAndC {
            x: u32::from(high) * 0x1_0000 + u32::from(low),
            c: f.c,
        },
    );
    leave_pair(k, look(way, t.x), t)
}
