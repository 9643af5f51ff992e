// Format 7: a word or a byte by one bit.
ghost use Rattle.std.specs.Prelude.{◌≡◌};
ghost use Rattle.shift.specs.Shifted.{one_bit_of};

use super::BitsAndC;
use super::shifted::{leave, n_bit};
use super::turning::turn;
use opcodes::Way;
use wordmath::width::Width;
use wordmath::{Done, Flags};

// ROR, ROL, ASR, ASL and RORB, ROLB, ASRB, ASLB
pub fn one_bit<W: Width>(way: Way, d: W, f: Flags) -> Done
    ensures { result ≡ one_bit_of W.BITS way (W.value d) f }
{
    let start = BitsAndC {
        x: d.number(),
        c: f.c,
    };
    let k = n_bit(W::BITS, way);
    let t = turn(W::BITS, way, start);
    leave(k, t)
}
