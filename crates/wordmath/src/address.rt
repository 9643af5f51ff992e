// Sums and differences of addresses are taken modulo 65,536.
ghost use Rattle.std.specs.Prelude.{◌≡◌};
ghost use Rattle.wordmath.specs.Address as Spec;

pub fn plus(a: u16, b: u16) -> u16
    ensures { result ≡ Spec.plus a b }
{
    a.wrapping_add(b)
}

pub fn minus(a: u16, b: u16) -> u16
    ensures { result ≡ Spec.minus a b }
{
    a.wrapping_sub(b)
}
