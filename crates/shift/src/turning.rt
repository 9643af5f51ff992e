// Shifts of a number of w bits, one bit at a time: w is 8 for a byte, 16 for a word, 32 for a pair of registers.
ghost use Rattle.std.specs.Prelude.{◌≡◌, ◌-◌, ◌<◌, ◌≤◌, ◌^◌};
ghost use Rattle.shift.specs.Shift.{right_one, left_one, turn, turns};

use super::BitsAndC;
use opcodes::Way;

// What the highest of w bits counts.
fn weight(w: u32) -> u32
    requires { (0 < w) × (w ≤ 32) }
    ensures { (result ≡ 2 ^ (w - 1)) × (0 < result) × (result ≤ 2 ^ 31) }
{
    1 << (w - 1)
}

fn right_one(w: u32, b: bool, x: u32) -> BitsAndC
    requires { (0 < w) × (w ≤ 32) }
    ensures { result ≡ right_one w b x }
{
    let top = weight(w);
    BitsAndC {
        x: x / 2 + u32::from(b) * top,
        c: x % 2 == 1,
    }
}

fn left_one(w: u32, b: bool, x: u32) -> BitsAndC
    requires { (0 < w) × (w ≤ 32) }
    ensures { result ≡ left_one w b x }
{
    let top = weight(w);
    BitsAndC {
        x: x % top * 2 + u32::from(b),
        c: (x >> (w - 1)) % 2 == 1,
    }
}

pub(crate) fn turn(w: u32, way: Way, t: BitsAndC) -> BitsAndC
    requires { (0 < w) × (w ≤ 32) }
    ensures { result ≡ turn w way t }
{
    let s = (t.x >> (w - 1)) % 2 == 1;
    match way {
        Way::RightRotate => right_one(w, t.c, t.x),
        Way::LeftRotate => left_one(w, t.c, t.x),
        Way::RightArith => right_one(w, s, t.x),
        Way::LeftArith => left_one(w, false, t.x),
    }
}

// As many turns as the count says.
pub(crate) fn shift(w: u32, way: Way, count: u16, t: BitsAndC) -> BitsAndC
    requires { (0 < w) × (w ≤ 32) × (t.x < 2 ^ w) }
    ensures { (result ≡ turns w way count t) × (result.x < 2 ^ w) }
{
    let mut s = t;
    for _ in 0..count {
        s = turn(w, way, s);
    }
    s
}
