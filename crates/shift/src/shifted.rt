// What a shift leaves: the registers and the indicators.
ghost use Rattle.std.specs.Prelude.{◌≡◌, ◌<◌, ◌^◌, eqb};
ghost use Rattle.wordmath.specs.Number.{bit, differ};
ghost use Rattle.shift.specs.Shifted.{n_bit, leaves, leaves_pair, looked, leaves_long};

use super::BitsAndC;
use opcodes::Way;
use wordmath::{Done, Flags, Pair};

// The bit that N is, on a number of w bits.
pub(crate) fn n_bit(w: u32, way: Way) -> u32
    requires { 0 < w }
    ensures { result ≡ n_bit w way }
{
    match way {
        Way::RightRotate => 7,
        Way::LeftRotate => w - 1,
        Way::RightArith => 7,
        Way::LeftArith => w - 1,
    }
}

// N is bit k of the register r, and V is N exclusive or C.
fn indicators(k: u32, r: u16, c: bool) -> Flags
    requires { k < 16 }
    ensures { result ≡ record { n = bit k r; z = eqb r 0; v = differ (bit k r) c; c = c } }
{
    let n = (r >> k) % 2 == 1;
    Flags {
        n,
        z: r == 0,
        v: n != c,
        c,
    }
}

pub(crate) fn leave(k: u32, t: BitsAndC) -> Done
    requires { (k < 16) × (t.x < 2 ^ 16) }
    ensures { result ≡ leaves k t }
{
    let value = t.x as u16;
    Done {
        value,
        flags: indicators(k, value, t.c),
    }
}

// The register that N and Z look at.
pub(crate) fn look(way: Way, x: u32) -> u16
    ensures { result ≡ looked way x }
{
    match way {
        Way::RightRotate => (x % 0x1_0000) as u16,
        Way::LeftRotate => (x / 0x1_0000) as u16,
        Way::RightArith => (x % 0x1_0000) as u16,
        Way::LeftArith => (x / 0x1_0000) as u16,
    }
}

pub(crate) fn leave_pair(k: u32, r: u16, t: BitsAndC) -> Pair
    requires { k < 16 }
    ensures { result ≡ leaves_pair k r t }
{
    Pair {
        low: (t.x % 0x1_0000) as u16,
        high: (t.x / 0x1_0000) as u16,
        flags: indicators(k, r, t.c),
    }
}

// N and Z are of all 32 bits, and V is reset: no shift of format 6 leaves its pair so.
pub(crate) fn leave_long(t: BitsAndC) -> Pair
    ensures { result ≡ leaves_long t }
{
    let x = t.x;
    Pair {
        low: (x % 0x1_0000) as u16,
        high: (x / 0x1_0000) as u16,
        flags: Flags {
            n: (x >> 31) % 2 == 1,
            z: x == 0,
            v: false,
            c: t.c,
        },
    }
}
