// Format 6: a number, 1 to 16, and a register.
ghost use Rattle.std.specs.Prelude.{◌≡◌};
ghost use Rattle.arith.specs.Immediate.{immediate_of, movi_of};

use super::ops;
use opcodes::Immediate;
use wordmath::{Done, Flags};

// ADDI, SUBI, BICI, MOVI: the number n and the register d.
pub fn immediate(op: Immediate, n: u16, d: u16, f: Flags) -> Done
    ensures { result ≡ immediate_of op n d f }
{
    match op {
        Immediate::Addi => ops::add(n, d),
        Immediate::Subi => ops::sub(n, d),
        Immediate::Bici => ops::bic(n, d, f),
        Immediate::Movi => movi(n, f),
    }
}

fn movi(n: u16, f: Flags) -> Done
    ensures { result ≡ movi_of n f }
{
    Done {
        value: n,
        flags: Flags {
            n: false,
            z: false,
            v: false,
            c: f.c,
        },
    }
}
