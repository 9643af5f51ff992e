// Op codes on a number of either width.
ghost use Rattle.std.specs.Prelude.{◌≡◌};
ghost use Rattle.unary.specs.Ops.{set_of, clr_of, com_of, neg_of, inc_of, dec_of};

use wordmath::result::{done, mov};
use wordmath::width::Width;
use wordmath::{Done, Flags};

pub(crate) fn set<W: Width>(f: Flags) -> Done
    ensures { result ≡ set_of W.BITS f }
{
    mov(W::low(0).complement(), f)
}

pub(crate) fn clr(c: bool) -> Done
    ensures { result ≡ clr_of c }
{
    Done {
        value: 0,
        flags: Flags {
            n: false,
            z: true,
            v: false,
            c,
        },
    }
}

pub(crate) fn com<W: Width>(d: W) -> Done
    ensures { result ≡ com_of W.BITS (W.value d) }
{
    done(d.complement(), false, true)
}

pub(crate) fn neg<W: Width>(d: W) -> Done
    ensures { result ≡ neg_of W.BITS (W.value d) }
{
    let r = W::low(W::modulus() - d.number());
    done(r, r.number() == W::highest(), r.number() != 0)
}

pub(crate) fn inc<W: Width>(d: W) -> Done
    ensures { result ≡ inc_of W.BITS (W.value d) }
{
    let t = d.number() + 1;
    let r = W::low(t);
    done(r, r.number() == W::highest(), W::modulus() <= t)
}

pub(crate) fn dec<W: Width>(d: W) -> Done
    ensures { result ≡ dec_of W.BITS (W.value d) }
{
    let r = W::low(d.number() + W::modulus() - 1);
    done(r, r.number() == W::highest() - 1, d.number() < 1)
}
