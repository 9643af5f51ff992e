// Formats 2 and 3, 0010 to 003F.
ghost use Rattle.std.specs.Prelude.{◌≡◌, ◌<◌};
ghost use Rattle.board.specs.Exec.{beside, Lent, Board, Saw, Works};
ghost use Rattle.formats2to4.specs.Format2 as Spec;

use board::Blank;
use opcodes::fields::{format2_code, only_register};
use state::{Outside, State};
use wordmath::address::plus;

// Twice the device code, a number of 4 bits.
fn acknowledge(out: Outside) -> u16
    ensures { result ≡ Spec.acknowledge out }
{
    plus(out.device, out.device)
}

// IAK: the acknowledge code is placed in REG.
fn iak(s: State, out: Outside, k: u16) -> State
    ensures { result ≡ Spec.iak out s k }
{
    s.with_reg(k, acknowledge(out))
}

// RTN: PC ← REG; REG ← @SP, SP ↑.
pub(crate) fn rtn(s: State, image: &[u8], map: &[u8], k: u16) -> Result<State, Blank>
    requires { Lent map.now image.now }
    ensures { Saw map.now (Spec.rtn s k) image.now result }
{
    s.with_pc(s.reg(k)).pop_reg(image, map, k)
}

// MSKO: (loc 2E) ← REG.
fn msko(s: State, image: &mut [u8], map: &[u8], log: &mut [u16; 32], k: u16) -> Result<State, Blank>
    requires { Board map.now (beside image.old log.old) }
    ensures { Works map.now (Spec.msko s k) image.old log.old result image.new log.new }
{
    board::store(image, map, log, 0x2e, s.reg(k))?;
    Ok(s)
}

// PRTN: TMP ← @SP; SP ← SP + TMP * 2; RTN REG.
fn prtn(s: State, image: &[u8], map: &[u8], k: u16) -> Result<State, Blank>
    requires { Lent map.now image.now }
    ensures { Saw map.now (Spec.prtn s k) image.now result }
{
    let sp = s.regs.sp;
    let tmp = board::load(image, map, sp)?;
    rtn(s.with_sp(plus(sp, plus(tmp, tmp))), image, map, k)
}

pub(crate) fn format2(
    s: State,
    image: &mut [u8],
    map: &[u8],
    log: &mut [u16; 32],
    out: Outside,
    op: u16,
) -> Result<State, Blank>
    requires { Board map.now (beside image.old log.old) }
    ensures { Works map.now (Spec.format2 out s op) image.old log.old result image.new log.new }
{
    let k = only_register(op);
    match format2_code(op) {
        2 => Ok(iak(s, out, k)),
        3 => rtn(s, image, map, k),
        4 => msko(s, image, map, log, k),
        _ => prtn(s, image, map, k),
    }
}

// LCC: N Z V C from bits 3 to 0 of the op code.
pub(crate) fn lcc(s: State, op: u16) -> State
    ensures { result ≡ Spec.lcc s op }
{
    s.with_flags(wordmath::status::flags_of(op))
}
