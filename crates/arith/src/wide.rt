// Format 9: MUL and DIV. low is REG, high is REG+1.
ghost use Rattle.std.specs.Prelude.{◌≡◌};
ghost use Rattle.arith.specs.Wide.{mul_of, div_of};

use wordmath::{Flags, Pair};

pub fn mul(a: u16, b: u16) -> Pair
    ensures { result ≡ mul_of a b }
{
    let p = u32::from(a) * u32::from(b);
    Pair {
        low: (p % 0x1_0000) as u16,
        high: (p / 0x1_0000) as u16,
        flags: Flags {
            n: (p >> 31) % 2 == 1,
            z: p == 0,
            v: false,
            c: true,
        },
    }
}

// The pair high:low by d.
pub fn div(low: u16, high: u16, d: u16) -> Pair
    ensures { result ≡ div_of low high d }
{
    if d <= high {
        return Pair {
            low,
            high,
            flags: Flags {
                n: false,
                z: false,
                v: true,
                c: d == 0,
            },
        };
    }
    let whole = u32::from(high) * 0x1_0000 + u32::from(low);
    let q = whole / u32::from(d);
    Pair {
        low: q as u16,
        high: (whole % u32::from(d)) as u16,
        flags: Flags {
            n: (q >> 15) % 2 == 1,
            z: q == 0,
            v: false,
            c: true,
        },
    }
}
