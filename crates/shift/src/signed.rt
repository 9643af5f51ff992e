// Format 9: ASH and ASHC, and the indicators before.
ghost use Rattle.std.specs.Prelude.{◌≡◌};
ghost use Rattle.shift.specs.Shifted.{preset, ash_of, ashc_of};

use super::BitsAndC;
use super::shifted::{leave, leave_long};
use super::turning::shift;
use opcodes::Way;
use wordmath::{Done, Flags, Pair};

// The indicators that every op code of format 9 but SOB begins with.
pub fn preset() -> Flags
    ensures { result ≡ preset }
{
    Flags {
        n: true,
        z: false,
        v: false,
        c: true,
    }
}

// The register x by the signed byte k: to the left if it is positive, to the right if negative.
pub fn ash(x: u16, k: u8) -> Done
    ensures { result ≡ ash_of x k }
{
    if k == 0 {
        return Done {
            value: x,
            flags: preset(),
        };
    }
    let start = BitsAndC {
        x: u32::from(x),
        c: true,
    };
    if k < 128 {
        leave(15, shift(16, Way::LeftArith, u16::from(k), start))
    } else {
        leave(15, shift(16, Way::RightArith, 256 - u16::from(k), start))
    }
}

// The pair high:low by the signed byte k.
pub fn ashc(low: u16, high: u16, k: u8) -> Pair
    ensures { result ≡ ashc_of low high k }
{
    if k == 0 {
        return Pair {
            low,
            high,
            flags: preset(),
        };
    }
    let start = BitsAndC {
        x: u32::from(high) * 0x1_0000 + u32::from(low),
        c: true,
    };
    if k < 128 {
        leave_long(shift(32, Way::LeftArith, u16::from(k), start))
    } else {
        leave_long(shift(32, Way::RightArith, 256 - u16::from(k), start))
    }
}
