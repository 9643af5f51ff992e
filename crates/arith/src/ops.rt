// Op codes on two numbers of one width, and BIC, which is on words alone.
ghost use Rattle.std.specs.Prelude.{◌≡◌};
ghost use Rattle.arith.specs.Ops.{add_of, sub_of, bic_of};

use wordmath::result::{done, mov};
use wordmath::width::Width;
use wordmath::{Done, Flags};

// ADD, ADDI
pub(crate) fn add<W: Width>(s: W, d: W) -> Done
    ensures { result ≡ add_of W.BITS (W.value s) (W.value d) }
{
    let t = s.number() + d.number();
    let r = W::low(t);
    let n = r.is_negative();
    let ns = s.is_negative();
    let nd = d.is_negative();
    done(r, (ns == nd) & (nd != n), W::modulus() <= t)
}

// SUB, SUBI; CMP and CMPB with the operands exchanged
pub(crate) fn sub<W: Width>(s: W, d: W) -> Done
    ensures { result ≡ sub_of W.BITS (W.value s) (W.value d) }
{
    let r = W::low(d.number() + W::modulus() - s.number());
    let n = r.is_negative();
    let ns = s.is_negative();
    let nd = d.is_negative();
    done(r, (ns != nd) & (n == ns), d.word() < s.word())
}

// BIC, BICI
pub(crate) fn bic(s: u16, d: u16, f: Flags) -> Done
    ensures { result ≡ bic_of 16 s d f }
{
    mov(!s & d, f)
}
