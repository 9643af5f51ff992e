// Format 9: REG and DST.
#![tactic(auto)]

ghost use Rattle.std.specs.Prelude.{◌≡◌, ◌%◌};
ghost use Rattle.board.specs.Work.{word, byte};
ghost use Rattle.board.specs.Exec.{beside, Lent, Board, Saw, Works};
ghost use Rattle.format9.specs.Format9 as Spec;
ghost use Rattle.format9.specs.Inner as Inner;

use board::Blank;
use opcodes::fields::{destination_mode, destination_register, format9_code, offset, register};
use operand::destination::destination;
use operand::{Held, Place, locate, moved};
use state::{Outside, State};
use wordmath::address::minus;

// JSR at an address: ↓ SP, @SP ← REG; REG ← PC; PC ← DST.
fn jsr_at(
    s: State,
    image: &mut [u8],
    map: &[u8],
    log: &mut [u16; 32],
    k: u16,
    a: u16,
) -> Result<State, Blank>
    requires { Board map.now (beside image.old log.old) }
    ensures { Works map.now (Spec.jsr_at s k a) image.old log.old result image.new log.new }
{
    let t = s.push_reg(image, map, log, k)?;
    Ok(t.with_reg(k, t.regs.pc).with_pc(a))
}

fn jsr_to(
    s: State,
    image: &mut [u8],
    map: &[u8],
    log: &mut [u16; 32],
    out: Outside,
    k: u16,
    place: Place,
) -> Result<State, Blank>
    requires { Board map.now (beside image.old log.old) }
    ensures { Works map.now (Spec.jsr_to out s k place) image.old log.old result image.new log.new }
{
    match place {
        Place::Reg => {
            let t = s;
            let o = out;
            let m = map;
            state::apart(t.trap_now(image, m, log, o, 0x1c))
        }
        Place::Mem(a, _, _) => jsr_at(s, image, map, log, k, a),
    }
}

// JSR: DST is decoded, and nothing is read there.
fn jsr(
    s: State,
    image: &mut [u8],
    map: &[u8],
    log: &mut [u16; 32],
    out: Outside,
    op: u16,
) -> Result<State, Blank>
    requires { Board map.now (beside image.old log.old) }
    ensures { Works map.now (Spec.jsr out s op) image.old log.old result image.new log.new }
{
    let k = destination_register(op);
    let mode = destination_mode(op);
    let r = register(op);
    let to = locate(image, map, 2, k, s.reg(k), s.regs.pc, mode)?;
    let t = moved(s, to);
    jsr_to(t, image, map, log, out, r, to)
}

fn lea_to(
    s: State,
    image: &mut [u8],
    map: &[u8],
    log: &mut [u16; 32],
    out: Outside,
    k: u16,
    place: Place,
) -> Result<State, Blank>
    requires { Board map.now (beside image.old log.old) }
    ensures { Works map.now (Spec.lea_to out s k place) image.old log.old result image.new log.new }
{
    match place {
        Place::Reg => s.trap_now(image, map, log, out, 0x1c),
        Place::Mem(a, _, _) => Ok(s.with_reg(k, a)),
    }
}

// LEA: REG ← DST.
fn lea(
    s: State,
    image: &mut [u8],
    map: &[u8],
    log: &mut [u16; 32],
    out: Outside,
    op: u16,
) -> Result<State, Blank>
    requires { Board map.now (beside image.old log.old) }
    ensures { Works map.now (Spec.lea out s op) image.old log.old result image.new log.new }
{
    let k = destination_register(op);
    let mode = destination_mode(op);
    let r = register(op);
    let to = locate(image, map, 2, k, s.reg(k), s.regs.pc, mode)?;
    let t = moved(s, to);
    lea_to(t, image, map, log, out, r, to)
}

// ASH: REG is shifted by (DST), a signed byte.
fn ash(s: State, image: &[u8], map: &[u8], op: u16) -> Result<State, Blank>
    requires { Lent map.now image.now }
    ensures { Saw map.now (Spec.ash s op) image.now result }
{
    let k = register(op);
    let Held {
        state: t,
        operand: n,
        ..
    } = destination(s, image, map, true, op)?;
    let done = shift::signed::ash(t.reg(k), (n % 256) as u8);
    Ok(t.with_done(k, done))
}

// SOB: REG ← REG - 1; IF REG is not 0, PC ← PC - (OFFSET * 2).
fn sob(s: State, op: u16) -> State
    ensures { result ≡ Spec.sob s op }
{
    let k = register(op);
    let n = offset(op);
    let v = minus(s.reg(k), 1);
    let t = s.with_reg(k, v);
    if v == 0 {
        return t;
    }
    t.with_pc(minus(t.regs.pc, n * 2))
}

// XCH: REG and (DST) are exchanged.
fn xch(s: State, image: &mut [u8], map: &[u8], log: &mut [u16; 32], op: u16) -> Result<State, Blank>
    requires { Board map.now (beside image.old log.old) }
    ensures { Works map.now (Spec.xch s op) image.old log.old result image.new log.new }
{
    let k = register(op);
    let to = destination_register(op);
    let Held {
        state: t,
        place,
        operand: d,
    } = destination(s, image, map, false, op)?;
    let r = t.reg(k);
    operand::write(t.with_reg(k, d), image, map, log, false, to, place, r)
}

// ASHC: as ASH, on REG+1:REG.
fn ashc(s: State, image: &[u8], map: &[u8], op: u16) -> Result<State, Blank>
    requires { Lent map.now image.now }
    ensures { Saw map.now (Spec.ashc s op) image.now result }
{
    let k = register(op);
    let Held {
        state: t,
        operand: n,
        ..
    } = destination(s, image, map, true, op)?;
    let pair = shift::signed::ashc(t.reg(k), t.reg(state::next(k)), (n % 256) as u8);
    Ok(t.with_pair(k, pair))
}

// MUL: REG+1:REG ← REG * (DST).
fn mul(s: State, image: &[u8], map: &[u8], op: u16) -> Result<State, Blank>
    requires { Lent map.now image.now }
    ensures { Saw map.now (Spec.mul s op) image.now result }
{
    let k = register(op);
    let Held {
        state: t,
        operand: d,
        ..
    } = destination(s, image, map, false, op)?;
    let pair = arith::wide::mul(t.reg(k), d);
    Ok(t.with_pair(k, pair))
}

// DIV: REG ← REG+1:REG / (DST); REG+1 ← REMAINDER.
fn div(s: State, image: &[u8], map: &[u8], op: u16) -> Result<State, Blank>
    requires { Lent map.now image.now }
    ensures { Saw map.now (Spec.div s op) image.now result }
{
    let k = register(op);
    let Held {
        state: t,
        operand: d,
        ..
    } = destination(s, image, map, false, op)?;
    let pair = arith::wide::div(t.reg(k), t.reg(state::next(k)), d);
    Ok(t.with_pair(k, pair))
}

// All but SOB and JSR, which are tried before: with the indicators preset. Arms, since they take different things: two write, and one asks for the lines outside.
fn preset_code(
    s: State,
    image: &mut [u8],
    map: &[u8],
    log: &mut [u16; 32],
    out: Outside,
    op: u16,
) -> Result<State, Blank>
    requires { (Board map.now (beside image.old log.old)) × (Inner.NeitherJsrNorSob op) }
    ensures { Works map.now (Spec.format9 out s op) image.old log.old result image.new log.new }
{
    let opc = format9_code(op);
    let t = s.with_flags(shift::signed::preset());
    match opc {
        1 => lea(t, image, map, log, out, op),
        2 => ash(t, image, map, op),
        4 => xch(t, image, map, log, op),
        5 => ashc(t, image, map, op),
        6 => mul(t, image, map, op),
        _ => div(t, image, map, op),
    }
}

// What is met seldom, kept out of line: a function with two call sites is not inlined.
fn seldom(
    s: State,
    image: &mut [u8],
    map: &[u8],
    log: &mut [u16; 32],
    out: Outside,
    op: u16,
) -> Result<State, Blank>
    requires { (Board map.now (beside image.old log.old)) × (Inner.NeitherJsrNorSob op) }
    ensures { Works map.now (Spec.format9 out s op) image.old log.old result image.new log.new }
{
    let t = s;
    let o = out;
    let m = map;
    if op < 0x7600 {
        return state::apart(preset_code(t, image, m, log, o, op));
    }
    state::apart(preset_code(t, image, m, log, o, op))
}

// SOB and JSR are tried first.
pub fn format9(
    s: State,
    image: &mut [u8],
    map: &[u8],
    log: &mut [u16; 32],
    out: Outside,
    op: u16,
) -> Result<State, Blank>
    requires { Board map.now (beside image.old log.old) }
    ensures { Works map.now (Spec.format9 out s op) image.old log.old result image.new log.new }
{
    let opc = format9_code(op);
    if opc == 3 {
        return Ok(sob(s, op));
    }
    if opc == 0 {
        let t = s.with_flags(shift::signed::preset());
        return jsr(t, image, map, log, out, op);
    }
    seldom(s, image, map, log, out, op)
}
