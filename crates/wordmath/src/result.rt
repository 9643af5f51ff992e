// A result with its indicators: N and Z are the result's.
ghost use Rattle.std.specs.Prelude.{◌≡◌};
ghost use Rattle.wordmath.specs.Number.{done, mov_of};

use super::width::Width;
use super::{Done, Flags};

// V and C as given.
pub fn done<W: Width>(r: W, v: bool, c: bool) -> Done
    ensures { result ≡ done W.BITS (W.value r) v c }
{
    let value = r.word();
    Done {
        value,
        flags: Flags {
            n: r.is_negative(),
            z: value == 0,
            v,
            c,
        },
    }
}

// V reset, C unchanged: MOV, TST, SET, MOVB, TSTB, SETB, and the tail of AND, BIT, BIC, BIS, XOR and BISB
pub fn mov<W: Width>(r: W, f: Flags) -> Done
    ensures { result ≡ mov_of W.BITS (W.value r) f }
{
    done(r, false, f.c)
}
