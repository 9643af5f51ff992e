// The processor status word.
ghost use Rattle.std.specs.Prelude.{◌≡◌};
ghost use Rattle.wordmath.specs.Status.{formed, flags_of, enable_of};

use super::Flags;

pub fn form(jumpers: u16, power: bool, bus: bool, i2: bool, f: Flags) -> u16
    ensures { result ≡ formed jumpers power bus i2 f }
{
    let high = jumpers % 16 * 0x100
        + u16::from(power) * 0x8000
        + u16::from(bus) * 0x4000
        + u16::from(i2) * 0x1000;
    high + u16::from(f.n) * 8 + u16::from(f.z) * 4 + u16::from(f.v) * 2 + u16::from(f.c)
}

pub fn flags_of(ps: u16) -> Flags
    ensures { result ≡ flags_of ps }
{
    Flags {
        n: (ps >> 3) % 2 == 1,
        z: (ps >> 2) % 2 == 1,
        v: (ps >> 1) % 2 == 1,
        c: (ps >> 0) % 2 == 1,
    }
}

pub fn enable_of(ps: u16) -> bool
    ensures { result ≡ enable_of ps }
{
    (ps >> 12) % 2 == 1
}
