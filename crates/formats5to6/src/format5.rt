// Format 5: the branches.
ghost use Rattle.std.specs.Prelude.{◌≡◌};
ghost use Rattle.formats5to6.specs.Format5 as Spec;

use state::State;
use wordmath::address::plus;

// Twice the signed displacement, modulo 65,536.
fn displacement(op: u16) -> u16
    ensures { result ≡ Spec.displacement op }
{
    let d = op % 256;
    if d < 128 { d * 2 } else { d * 2 + 65024 }
}

// IF the condition holds, PC ← PC + (DISP * 2).
pub fn branch(s: State, op: u16) -> State
    ensures { result ≡ Spec.branch s op }
{
    if arith::branch::holds(op / 256 % 8 + op / 32768 * 8, s.flags) {
        return s.with_pc(plus(s.regs.pc, displacement(op)));
    }
    s
}
