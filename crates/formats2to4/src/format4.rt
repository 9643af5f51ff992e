// Format 4, 0040 to 00FF: supervisor calls.
ghost use Rattle.std.specs.Prelude.{◌≡◌, ◌*◌};
ghost use Rattle.board.specs.Exec.{beside, Lent, Board, Saw, Works};
ghost use Rattle.formats2to4.specs.Format4 as Spec;

use board::Blank;
use format1::save;
use opcodes::fields::{argument, format4_code};
use state::{Outside, State};
use wordmath::address::plus;

// SVCA: ↓ PS, ↓ PC; PC ← (loc 22) + ARG * 2; PC ← PC + @PC.
fn svca(
    s: State,
    image: &mut [u8],
    map: &[u8],
    log: &mut [u16; 32],
    out: Outside,
    n: u16,
) -> Result<State, Blank>
    requires { Board map.now (beside image.old log.old) }
    ensures { Works map.now (Spec.svca out s n) image.old log.old result image.new log.new }
{
    let t = s.push_both(image, map, log, s.ps(out, false))?;
    let table = board::load(image, map, 0x22)?;
    t.tabled(image, map, plus(table, plus(n, n)))
}

// SVCB and SVCC, by the location that has their PC.
fn svc(
    s: State,
    image: &mut [u8],
    map: &[u8],
    log: &mut [u16; 32],
    out: Outside,
    n: u16,
    at: u16,
) -> Result<State, Blank>
    requires { Board map.now (beside image.old log.old) }
    ensures { Works map.now (Spec.svc out s n at) image.old log.old result image.new log.new }
{
    let both = s.push_both(image, map, log, s.ps(out, false))?;
    let pushed = both.push(image, map, log, s.regs.sp)?;
    let saved = save(pushed, image, map, log)?;
    saved
        .with_reg(1, both.regs.sp)
        .with_reg(5, plus(n, n))
        .from_loc(image, map, at)
}

// SVCA 0040, SVCB 0080, SVCC 00C0.
pub(crate) fn format4(
    s: State,
    image: &mut [u8],
    map: &[u8],
    log: &mut [u16; 32],
    out: Outside,
    op: u16,
) -> Result<State, Blank>
    requires { Board map.now (beside image.old log.old) }
    ensures { Works map.now (Spec.format4 out s op) image.old log.old result image.new log.new }
{
    let n = argument(op);
    let opc = format4_code(op);
    if opc == 1 {
        return svca(s, image, map, log, out, n);
    }
    if opc == 2 {
        return svc(s, image, map, log, out, n, 0x24);
    }
    svc(s, image, map, log, out, n, 0x26)
}
