// The two widths of a number: a byte has 8 bits, a word 16.
ghost use Rattle.std.specs.Prelude.{◌≡◌, ℕ, ◌-◌, ◌%◌, ◌^◌, ◌<◌, ◌≤◌};
ghost use Rattle.std.proofs.Common.{rules};
ghost use Rattle.wordmath.specs.Number.{sign, complement};

// A byte or a word. What an op code does to either is written once, over the width.
pub trait Width: Copy {
    ghost BITS: { ℕ };

    ghost value: { Self → ℕ };

    // How many bits it has.
    const BITS: u32;

    // The number, as a word.
    fn word(self) -> u16
        ensures { (result ≡ value self) × (result < 2 ^ BITS) };

    // The low bits of a number.
    fn low(x: u32) -> Self
        ensures { value result ≡ x % 2 ^ BITS };

    ghost positive: { 0 < BITS };

    ghost within_a_word: { BITS ≤ 16 };

    // The number, with room for a sum.
    final fn number(self) -> u32
        ensures { (result ≡ value self) × (result < 2 ^ BITS) }
    {
        u32::from(self.word())
    }

    // One more than the highest number.
    final fn modulus() -> u32
        ensures { result ≡ 2 ^ BITS }
    {
        1 << Self::BITS
    }

    // What the highest bit counts.
    final fn highest() -> u32
        ensures { (result ≡ 2 ^ (BITS - 1)) × (0 < result) }
    {
        1 << (Self::BITS - 1)
    }

    // The sign: the highest bit.
    final fn is_negative(self) -> bool
        ensures { result ≡ sign BITS (value self) }
    {
        (self.word() >> (Self::BITS - 1)) % 2 == 1
    }

    // The one's complement.
    final fn complement(self) -> Self
        ensures { value result ≡ complement BITS (value self) }
    {
        Self::low(Self::modulus() - 1 - self.number())
    }
}

impl Width for u8 {
    ghost BITS = { 8 };

    ghost value = { λ x. x };

    const BITS: u32 = 8;

    fn word(self) -> u16 {
        u16::from(self)
    }

    fn low(x: u32) -> u8 {
        (x % 0x100) as u8
    }

    ghost positive = { Prim.search rules };

    ghost within_a_word = { Prim.search rules };
}

impl Width for u16 {
    ghost BITS = { 16 };

    ghost value = { λ x. x };

    const BITS: u32 = 16;

    fn word(self) -> u16 {
        self
    }

    fn low(x: u32) -> u16 {
        (x % 0x1_0000) as u16
    }

    ghost positive = { Prim.search rules };

    ghost within_a_word = { Prim.search rules };
}
