// A decoded operand and its value, for the op codes that read one.
ghost use Rattle.std.specs.Prelude.{◌≡◌};
ghost use Rattle.board.specs.Work.{size_of};
ghost use Rattle.board.specs.Exec.{beside, Lent, Board, Saw, Works};
ghost use Rattle.operand.specs.Operand.{increment_of, read_of};
ghost use Rattle.operand.specs.Destination as Spec;

use super::{Held, Place, byte_step, locate, moved, read_byte, read_word};
use board::Blank;
use opcodes::fields::{destination_mode, destination_register};
use state::State;

fn step_of(bytes: bool, k: u16) -> u16
    ensures { result ≡ increment_of (size_of bytes) k }
{
    if bytes { byte_step(k) } else { 2 }
}

fn read(image: &[u8], map: &[u8], bytes: bool, place: Place, r: u16) -> Result<u16, Blank>
    requires { Lent map.now image.now }
    ensures { Saw map.now (read_of (size_of bytes) r place) image.now result }
{
    if bytes {
        let b = read_byte(image, map, place, r)?;
        return Ok(b as u16);
    }
    read_word(image, map, place, r)
}

// DST of a byte op code or of a word one, decoded and read.
pub fn destination(s: State, image: &[u8], map: &[u8], bytes: bool, op: u16) -> Result<Held, Blank>
    requires { Lent map.now image.now }
    ensures { Saw map.now (Spec.destination (size_of bytes) s op) image.now result }
{
    let k = destination_register(op);
    let mode = destination_mode(op);
    let to = locate(image, map, step_of(bytes, k), k, s.reg(k), s.regs.pc, mode)?;
    let t = moved(s, to);
    let v = read(image, map, bytes, to, t.reg(k))?;
    Ok(Held {
        state: t,
        place: to,
        operand: v,
    })
}
