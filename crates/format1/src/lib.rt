// Format 1, 0000 to 000F.
#![tactic(auto)]

ghost use Rattle.std.specs.Prelude.{cond, ◌≡◌};
ghost use Rattle.board.specs.Exec.{beside, Lent, Board, Saw, Works};
ghost use Rattle.format1.specs.Format1 as Spec;

use board::Blank;
use state::{Mode, Outside, State, Taken};
use wordmath::address::plus;

fn halted(out: Outside) -> Mode
    ensures { result ≡ cond out.fail Mode.PowerHalt Mode.SwitchHalt }
{
    if out.fail {
        Mode::PowerHalt
    } else {
        Mode::SwitchHalt
    }
}

// HALT: I2 is reset; the mode says what ends the halt: the end of power fail, or the halt switch.
fn halt(s: State, out: Outside) -> State
    ensures { result ≡ Spec.halt out s }
{
    s.with_i2(false).with_mode(halted(out))
}

// WFI: I2 is set; nothing more happens until an interrupt.
fn wfi(s: State) -> State
    ensures { result ≡ Spec.wfi s }
{
    s.with_i2(true).with_mode(Mode::Waiting)
}

// IEN: I2 is set at once; where it was clear, one more op code begins before I0 and I1 are heard.
fn ien(s: State) -> State
    ensures { result ≡ Spec.ien s }
{
    let found = s.i2;
    s.with_i2(true).with_mark(!found)
}

// BPT: ↓ PS, ↓ PC, PC ← (loc 2C); I2 is kept.
fn bpt(
    s: State,
    image: &mut [u8],
    map: &[u8],
    log: &mut [u16; 32],
    out: Outside,
) -> Result<State, Blank>
    requires { Board map.now (beside image.old log.old) }
    ensures { Works map.now (Spec.bpt out s) image.old log.old result image.new log.new }
{
    let t = s.push_both(image, map, log, s.ps(out, false))?;
    t.from_loc(image, map, 0x2c)
}

// Three registers are pushed.
fn push_three(
    s: State,
    image: &mut [u8],
    map: &[u8],
    log: &mut [u16; 32],
    i: u16,
    j: u16,
    k: u16,
) -> Result<State, Blank>
    requires { Board map.now (beside image.old log.old) }
    ensures { Works map.now (Spec.push_three s i j k) image.old log.old result image.new log.new }
{
    let t = s.push_reg(image, map, log, i)?;
    let u = t.push_reg(image, map, log, j)?;
    u.push_reg(image, map, log, k)
}

// SAVE: R5 to R0 are pushed.
pub fn save(s: State, image: &mut [u8], map: &[u8], log: &mut [u16; 32]) -> Result<State, Blank>
    requires { Board map.now (beside image.old log.old) }
    ensures { Works map.now (Spec.save s) image.old log.old result image.new log.new }
{
    let t = push_three(s, image, map, log, 5, 4, 3)?;
    push_three(t, image, map, log, 2, 1, 0)
}

// SAVS: SAVE; ↓ SP, @SP ← (loc 2E); (loc 2E) ← (loc 2E) or MASK; IEN.
fn savs(s: State, image: &mut [u8], map: &[u8], log: &mut [u16; 32]) -> Result<State, Blank>
    requires { Board map.now (beside image.old log.old) }
    ensures { Works map.now (Spec.savs s) image.old log.old result image.new log.new }
{
    let Taken {
        state: fetched,
        word: mask,
    } = s.fetch(image, map)?;
    let saved = save(fetched, image, map, log)?;
    let old = board::load(image, map, 0x2e)?;
    let pushed = saved.push(image, map, log, old)?;
    board::store(image, map, log, 0x2e, old | mask)?;
    Ok(ien(pushed))
}

// Three registers are popped.
fn pop_three(s: State, image: &[u8], map: &[u8], i: u16, j: u16, k: u16) -> Result<State, Blank>
    requires { Lent map.now image.now }
    ensures { Saw map.now (Spec.pop_three s i j k) image.now result }
{
    let t = s.pop_reg(image, map, i)?;
    let u = t.pop_reg(image, map, j)?;
    u.pop_reg(image, map, k)
}

// REST: R0 to R5 are popped.
fn rest(s: State, image: &[u8], map: &[u8]) -> Result<State, Blank>
    requires { Lent map.now image.now }
    ensures { Saw map.now (Spec.rest s) image.now result }
{
    let t = pop_three(s, image, map, 0, 1, 2)?;
    pop_three(t, image, map, 3, 4, 5)
}

// RTT: PC ← @SP, SP ↑; PS ← @SP, SP ↑.
fn rtt(s: State, image: &[u8], map: &[u8]) -> Result<State, Blank>
    requires { Lent map.now image.now }
    ensures { Saw map.now (Spec.rtt s) image.now result }
{
    let t = s.pop_reg(image, map, 7)?;
    t.pop_status(image, map)
}

// RRTN: REST; PC ← @SP, SP ↑.
fn rrtn(s: State, image: &[u8], map: &[u8]) -> Result<State, Blank>
    requires { Lent map.now image.now }
    ensures { Saw map.now (Spec.rrtn s) image.now result }
{
    let t = rest(s, image, map)?;
    t.pop_reg(image, map, 7)
}

// RRTT: REST; RTT.
fn rrtt(s: State, image: &[u8], map: &[u8]) -> Result<State, Blank>
    requires { Lent map.now image.now }
    ensures { Saw map.now (Spec.rrtt s) image.now result }
{
    let t = rest(s, image, map)?;
    rtt(t, image, map)
}

// RSTS: (loc 2E) ← @SP, SP ↑; REST; RTT.
fn rsts(s: State, image: &mut [u8], map: &[u8], log: &mut [u16; 32]) -> Result<State, Blank>
    requires { Board map.now (beside image.old log.old) }
    ensures { Works map.now (Spec.rsts s) image.old log.old result image.new log.new }
{
    let Taken {
        state: t,
        word: mask,
    } = s.pop(image, map)?;
    board::store(image, map, log, 0x2e, mask)?;
    rrtt(t, image, map)
}

// RSVC: REST; SP ↑, the saved SP is bypassed; RTT.
fn rsvc(s: State, image: &[u8], map: &[u8]) -> Result<State, Blank>
    requires { Lent map.now image.now }
    ensures { Saw map.now (Spec.rsvc s) image.now result }
{
    let t = rest(s, image, map)?;
    rtt(t.with_sp(plus(t.regs.sp, 2)), image, map)
}

// Format 1 by number. XCT, 0005, is not executed here. Each number has an arm: 0 | 1 | 5 in one was
// tried, and the proof of the last arm, which counts the arms before it, didn't close.
fn by_number(
    s: State,
    image: &mut [u8],
    map: &[u8],
    log: &mut [u16; 32],
    out: Outside,
    op: u16,
) -> Result<State, Blank>
    requires { Board map.now (beside image.old log.old) }
    ensures { Works map.now (Spec.format1 out s op) image.old log.old result image.new log.new }
{
    match op {
        0 => Ok(s),
        1 => Ok(s),
        2 => Ok(ien(s)),
        3 => Ok(s.with_i2(false)),
        4 => Ok(halt(s, out)),
        5 => Ok(s),
        6 => bpt(s, image, map, log, out),
        7 => Ok(wfi(s)),
        8 => rsvc(s, image, map),
        9 => rrtt(s, image, map),
        10 => save(s, image, map, log),
        11 => savs(s, image, map, log),
        12 => rest(s, image, map),
        13 => rrtn(s, image, map),
        14 => rsts(s, image, map, log),
        _ => rtt(s, image, map),
    }
}

// What is met seldom, kept out of line: a function with two call sites is not inlined.
fn seldom(
    s: State,
    image: &mut [u8],
    map: &[u8],
    log: &mut [u16; 32],
    out: Outside,
    op: u16,
) -> Result<State, Blank>
    requires { Board map.now (beside image.old log.old) }
    ensures { Works map.now (Spec.format1 out s op) image.old log.old result image.new log.new }
{
    let t = s;
    let o = out;
    let m = map;
    if op < 8 {
        return state::apart(by_number(t, image, m, log, o, op));
    }
    state::apart(by_number(t, image, m, log, o, op))
}

// SAVE, REST and RTT are tried first.
pub fn format1(
    s: State,
    image: &mut [u8],
    map: &[u8],
    log: &mut [u16; 32],
    out: Outside,
    op: u16,
) -> Result<State, Blank>
    requires { Board map.now (beside image.old log.old) }
    ensures { Works map.now (Spec.format1 out s op) image.old log.old result image.new log.new }
{
    if op == 10 {
        let t = s;
        let m = map;
        return state::apart(save(t, image, m, log));
    }
    if op == 12 {
        return rest(s, image, map);
    }
    if op == 15 {
        return rtt(s, image, map);
    }
    seldom(s, image, map, log, out, op)
}
