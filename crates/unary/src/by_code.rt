// Format 7 by op code: 0A00 to 0CC0 on words, 8A00 to 8CC0 on bytes.
ghost use Rattle.std.specs.Prelude.{◌≡◌, cond, eqb};
ghost use Rattle.unary.specs.Ops.{swab_of, swad_of};
ghost use Rattle.unary.specs.Unary.{unary_of};

use super::{on_bytes, on_words, ops};
use opcodes::{Unary, Way};
use shift::one_bit::one_bit;
use wordmath::result::mov;
use wordmath::width::Width;
use wordmath::{Done, Flags};

// CLRB resets C in every mode.
pub fn unary<W: Width>(op: Unary, in_register: bool, d: W, f: Flags) -> Done
    ensures { result ≡ unary_of W.BITS op in_register (W.value d) f }
{
    match op {
        Unary::Ror => one_bit(Way::RightRotate, d, f),
        Unary::Rol => one_bit(Way::LeftRotate, d, f),
        Unary::Tst => mov(d, f),
        Unary::Asl => one_bit(Way::LeftArith, d, f),
        Unary::Set => ops::set::<W>(f),
        Unary::Clr => ops::clr((W::BITS == 16) & in_register & f.c),
        Unary::Asr => one_bit(Way::RightArith, d, f),
        Unary::Swap => swap(d, f),
        Unary::Com => ops::com(d),
        Unary::Neg => ops::neg(d),
        Unary::Inc => ops::inc(d),
        Unary::Dec => ops::dec(d),
    }
}

// SWAD and SWAB.
fn swap<W: Width>(d: W, f: Flags) -> Done
    ensures { result ≡ cond (eqb W.BITS 8) (swad_of (W.value d)) (swab_of (W.value d) f) }
{
    if W::BITS == 8 {
        return on_bytes::swad((d.word() % 256) as u8);
    }
    on_words::swab(d.word(), f)
}
