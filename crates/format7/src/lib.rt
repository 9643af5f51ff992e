// Format 7: one operand.
#![tactic(auto)]

ghost use Rattle.std.specs.Prelude.{◌≡◌};
ghost use Rattle.board.specs.Work.{word, byte, size_of};
ghost use Rattle.board.specs.Exec.{beside, Lent, Board, Saw, Works};
ghost use Rattle.format7.specs.Format7 as Spec;
ghost use Rattle.format7.specs.Rows as Rows;

use board::Blank;
use opcodes::fields::{destination_mode, destination_register};
use operand::destination::destination;
use operand::{Held, Place, byte_step, locate, moved, read_byte, read_word};
use state::{Outside, State};
use wordmath::address::{minus, plus};
use wordmath::{Done, Flags};

// The row of an op code among the 16 from 0A00, or among those from 8A00.
fn row_of(op: u16) -> u16
    ensures { result ≡ Spec.column_row op }
{
    minus(op % 0x8000, 0xa00) / 64
}

// IW2, SXT, ADC, SBC.
fn further_word(op: u16, row: u16, d: u16, f: Flags) -> Done
    ensures { result ≡ Rows.further_at op row d f }
{
    if op < 0x8000 {
        if row == 12 {
            unary::on_words::iw2(d)
        } else {
            unary::on_words::sxt(f)
        }
    } else {
        if row == 14 {
            unary::on_words::adc(d, f)
        } else {
            unary::on_words::sbc(d, f)
        }
    }
}

// The operand is in a register: mode 0.
fn in_register(op: u16) -> bool
    ensures { result ≡ Spec.in_register op }
{
    destination_mode(op) == 0
}

fn word_result(op: u16, row: u16, d: u16, f: Flags) -> Done
    ensures { result ≡ Rows.result_at word op row d f }
{
    if row < 12 {
        return unary::by_code::unary(opcodes::unary_at(row), in_register(op), d, f);
    }
    further_word(op, row, d, f)
}

fn byte_result(op: u16, row: u16, d: u8, f: Flags) -> Done
    ensures { result ≡ Rows.result_at byte op row d f }
{
    unary::by_code::unary(opcodes::unary_at(row), in_register(op), d, f)
}

fn stored(
    s: State,
    image: &mut [u8],
    map: &[u8],
    log: &mut [u16; 32],
    bytes: bool,
    op: u16,
    row: u16,
    place: Place,
    v: u16,
) -> Result<State, Blank>
    requires { Board map.now (beside image.old log.old) }
    ensures { Works map.now (Rows.stored_at (size_of bytes) op row s place v) image.old log.old result image.new log.new }
{
    let k = destination_register(op);
    if row == 2 {
        return Ok(s);
    }
    operand::write(s, image, map, log, bytes, k, place, v)
}

// ROR to DEC, IW2, SXT, ADC, SBC. Words and bytes have other rows of op codes: one function would ask at each line which it is.
fn modify_word(
    s: State,
    image: &mut [u8],
    map: &[u8],
    log: &mut [u16; 32],
    op: u16,
    row: u16,
) -> Result<State, Blank>
    requires { Board map.now (beside image.old log.old) }
    ensures { Works map.now (Rows.modify_at word s op row) image.old log.old result image.new log.new }
{
    let k = destination_register(op);
    let mode = destination_mode(op);
    let place = locate(image, map, 2, k, s.reg(k), s.regs.pc, mode)?;
    let t = moved(s, place);
    let d = read_word(image, map, place, t.reg(k))?;
    let done = word_result(op, row, d, t.flags);
    stored(
        t.with_flags(done.flags),
        image,
        map,
        log,
        false,
        op,
        row,
        place,
        done.value,
    )
}

// RORB to DECB, SWAD.
fn modify_byte(
    s: State,
    image: &mut [u8],
    map: &[u8],
    log: &mut [u16; 32],
    op: u16,
    row: u16,
) -> Result<State, Blank>
    requires { Board map.now (beside image.old log.old) }
    ensures { Works map.now (Rows.modify_at byte s op row) image.old log.old result image.new log.new }
{
    let k = destination_register(op);
    let mode = destination_mode(op);
    let place = locate(image, map, byte_step(k), k, s.reg(k), s.regs.pc, mode)?;
    let t = moved(s, place);
    let d = read_byte(image, map, place, t.reg(k))?;
    let done = byte_result(op, row, d, t.flags);
    stored(
        t.with_flags(done.flags),
        image,
        map,
        log,
        true,
        op,
        row,
        place,
        done.value,
    )
}

// TCALL: ↓ SP, @SP ← PC; PC ← PC + (DST); PC ← PC + @PC.
fn tcall(
    s: State,
    image: &mut [u8],
    map: &[u8],
    log: &mut [u16; 32],
    op: u16,
) -> Result<State, Blank>
    requires { Board map.now (beside image.old log.old) }
    ensures { Works map.now (Spec.tcall s op) image.old log.old result image.new log.new }
{
    let Held {
        state: t,
        operand: d,
        ..
    } = destination(s, image, map, false, op)?;
    let u = t.push(image, map, log, t.regs.pc)?;
    u.tabled(image, map, plus(u.regs.pc, d))
}

// TJMP: PC ← PC + (DST); PC ← PC + @PC.
fn tjmp(s: State, image: &[u8], map: &[u8], op: u16) -> Result<State, Blank>
    requires { Lent map.now image.now }
    ensures { Saw map.now (Spec.tjmp s op) image.now result }
{
    let Held {
        state: t,
        operand: d,
        ..
    } = destination(s, image, map, false, op)?;
    t.tabled(image, map, plus(t.regs.pc, d))
}

// LSTS: the indicators and I2 are loaded from (DST).
fn lsts(s: State, image: &[u8], map: &[u8], op: u16) -> Result<State, Blank>
    requires { Lent map.now image.now }
    ensures { Saw map.now (Spec.lsts s op) image.now result }
{
    let Held {
        state: t,
        operand: d,
        ..
    } = destination(s, image, map, false, op)?;
    Ok(t.with_status(d))
}

// SSTS: the PS is formed and stored in (DST).
fn ssts(
    s: State,
    image: &mut [u8],
    map: &[u8],
    log: &mut [u16; 32],
    out: Outside,
    op: u16,
) -> Result<State, Blank>
    requires { Board map.now (beside image.old log.old) }
    ensures { Works map.now (Spec.ssts out s op) image.old log.old result image.new log.new }
{
    let k = destination_register(op);
    let Held {
        state: t,
        place,
        ..
    } = destination(s, image, map, false, op)?;
    operand::write(t, image, map, log, false, k, place, t.ps(out, false))
}

// 0A00 to 0D7F, and 8D80, 8DC0.
fn on_word(op: u16, row: u16) -> bool
    ensures { result ≡ Rows.on_word_at op row }
{
    if op < 0x8000 { row < 14 } else { 13 < row }
}

// 8D00 LSTS, 8D40 SSTS.
fn status_code(
    s: State,
    image: &mut [u8],
    map: &[u8],
    log: &mut [u16; 32],
    out: Outside,
    op: u16,
    row: u16,
) -> Result<State, Blank>
    requires { Board map.now (beside image.old log.old) }
    ensures { Works map.now (Rows.status_at out s op row) image.old log.old result image.new log.new }
{
    if row == 12 {
        return lsts(s, image, map, op);
    }
    ssts(s, image, map, log, out, op)
}

// TCALL, TJMP, LSTS, SSTS.
fn no_result(
    s: State,
    image: &mut [u8],
    map: &[u8],
    log: &mut [u16; 32],
    out: Outside,
    op: u16,
    row: u16,
) -> Result<State, Blank>
    requires { Board map.now (beside image.old log.old) }
    ensures { Works map.now (Rows.no_result_at out s op row) image.old log.old result image.new log.new }
{
    if op >= 0x8000 {
        return status_code(s, image, map, log, out, op, row);
    }
    if row == 14 {
        return tcall(s, image, map, log, op);
    }
    tjmp(s, image, map, op)
}

// What is met seldom, kept out of line: a function with two call sites is not inlined.
fn seldom(
    s: State,
    image: &mut [u8],
    map: &[u8],
    log: &mut [u16; 32],
    out: Outside,
    op: u16,
    row: u16,
) -> Result<State, Blank>
    requires { Board map.now (beside image.old log.old) }
    ensures { Works map.now (Rows.no_result_at out s op row) image.old log.old result image.new log.new }
{
    let t = s;
    let o = out;
    let m = map;
    if op < 0x8000 {
        return state::apart(no_result(t, image, m, log, o, op, row));
    }
    state::apart(no_result(t, image, m, log, o, op, row))
}

// What modifies its operand is tried first.
pub fn format7(
    s: State,
    image: &mut [u8],
    map: &[u8],
    log: &mut [u16; 32],
    out: Outside,
    op: u16,
) -> Result<State, Blank>
    requires { Board map.now (beside image.old log.old) }
    ensures { Works map.now (Spec.format7 out s op) image.old log.old result image.new log.new }
{
    let row = row_of(op);
    if on_word(op, row) {
        return modify_word(s, image, map, log, op, row);
    }
    if row < 12 {
        return modify_byte(s, image, map, log, op, row);
    }
    seldom(s, image, map, log, out, op, row)
}
