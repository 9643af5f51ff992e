// Hex digits read.
ghost use Rattle.std.specs.Prelude.{◌≡◌, ◌<◌};
ghost use Rattle.optext.specs.Digits.{un_hex};

// The number of a digit, or 0.
pub(crate) fn un_hex(c: u8) -> u16
    ensures { (result ≡ un_hex c) × (result < 16) }
{
    if c < 48 {
        return 0;
    }
    if c < 58 {
        return (c - 48) as u16;
    }
    if c < 65 {
        return 0;
    }
    if c < 71 {
        return (c - 55) as u16;
    }
    0
}
