// Formats 1 to 4: the op codes whose high byte is 00.
#![tactic(auto)]

ghost use Rattle.std.specs.Prelude.{◌≡◌};
ghost use Rattle.board.specs.Exec.{beside, Lent, Board, Saw, Works};
ghost use Rattle.formats2to4.specs.Low as Spec;

use board::Blank;
use opcodes::fields::{format2_code, only_register};
use state::{Outside, State};

mod format2;
mod format4;

fn formats_2_to_4(
    s: State,
    image: &mut [u8],
    map: &[u8],
    log: &mut [u16; 32],
    out: Outside,
    op: u16,
) -> Result<State, Blank>
    requires { Board map.now (beside image.old log.old) }
    ensures { Works map.now (Spec.formats2to4 out s op) image.old log.old result image.new log.new }
{
    if op < 0x30 {
        return format2::format2(s, image, map, log, out, op);
    }
    if op < 0x40 {
        return Ok(format2::lcc(s, op));
    }
    format4::format4(s, image, map, log, out, op)
}

// What is met seldom, kept out of line: a function with two call sites is not inlined.
fn seldom(
    s: State,
    image: &mut [u8],
    map: &[u8],
    log: &mut [u16; 32],
    out: Outside,
    op: u16,
) -> Result<State, Blank>
    requires { Board map.now (beside image.old log.old) }
    ensures { Works map.now (Spec.formats2to4 out s op) image.old log.old result image.new log.new }
{
    let t = s;
    let o = out;
    let m = map;
    if op < 0x40 {
        return state::apart(formats_2_to_4(t, image, m, log, o, op));
    }
    state::apart(formats_2_to_4(t, image, m, log, o, op))
}

// Format 1, then RTN, are tried first.
pub fn low_codes(
    s: State,
    image: &mut [u8],
    map: &[u8],
    log: &mut [u16; 32],
    out: Outside,
    op: u16,
) -> Result<State, Blank>
    requires { Board map.now (beside image.old log.old) }
    ensures { Works map.now (Spec.low_codes out s op) image.old log.old result image.new log.new }
{
    if op < 0x10 {
        return format1::format1(s, image, map, log, out, op);
    }
    if format2_code(op) == 3 {
        return format2::rtn(s, image, map, only_register(op));
    }
    seldom(s, image, map, log, out, op)
}
