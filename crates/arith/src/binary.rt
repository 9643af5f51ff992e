// Format 10 by op code: the source s, the destination d.
ghost use Rattle.std.specs.Prelude.{◌≡◌};
ghost use Rattle.arith.specs.Binary.{binary_of, byte_binary_of};

use super::ops;
use opcodes::{Binary, ByteBinary};
use wordmath::result::mov;
use wordmath::{Done, Flags};

// One arm for each op code, as the manual has them; a table of functions would hide which.
pub fn binary(op: Binary, s: u16, d: u16, f: Flags) -> Done
    ensures { result ≡ binary_of op s d f }
{
    match op {
        Binary::Add => ops::add(s, d),
        Binary::Sub => ops::sub(s, d),
        Binary::And => mov(s & d, f),
        Binary::Bic => ops::bic(s, d, f),
        Binary::Bis => mov(s | d, f),
        Binary::Xor => mov(s ^ d, f),
        Binary::Cmp => ops::sub(d, s),
        Binary::Bit => mov(s & d, f),
        Binary::Mov => mov(s, f),
    }
}

pub fn byte_binary(op: ByteBinary, s: u8, d: u8, f: Flags) -> Done
    ensures { result ≡ byte_binary_of op s d f }
{
    match op {
        ByteBinary::Cmpb => ops::sub(d, s),
        ByteBinary::Movb => mov(s, f),
        ByteBinary::Bisb => mov(s | d, f),
    }
}
