// A byte's place in a register.
ghost use Rattle.std.specs.Prelude.{◌≡◌};
ghost use Rattle.arith.specs.Ops.{extended, with_low};

// The byte with its sign through bit 15: MOVB to a register.
pub fn extend(b: u8) -> u16
    ensures { result ≡ extended b }
{
    u16::from(b >> 7) * 0xff00 + u16::from(b)
}

// The register with its low byte replaced: every other op code on the byte of a register.
pub fn with_low(r: u16, b: u8) -> u16
    ensures { result ≡ with_low r b }
{
    r / 256 * 256 + u16::from(b)
}
