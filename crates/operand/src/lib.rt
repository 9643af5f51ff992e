// Operands: the eight addressing modes, and reading and writing what they point to.
#![tactic(auto)]

ghost use Rattle.std.specs.Prelude.{◌≡◌, ◌%◌, ◌<◌};
ghost use Rattle.board.specs.Work.{word, byte, size_of};
ghost use Rattle.board.specs.Exec.{beside, Lent, Board, Saw, Works};
ghost use Rattle.operand.specs.Operand as Spec;
ghost use Rattle.operand.specs.Modes as Modes;

use board::Blank;
use state::State;
use wordbytes::low;
use wordmath::address::{minus, plus};

// Where an operand stands: in its register; or in memory, at an address, with a register moved to a value.
#[derive(Clone, Copy)]
pub enum Place {
    Reg,
    Mem(u16, u16, u16),
}

pub mod destination;

// The state after decoding, the place of the operand, and its value.
#[derive(Clone, Copy)]
pub struct Held {
    pub state: State,
    pub place: Place,
    pub operand: u16,
}

// The increment or decrement of a byte op code: 1, but 2 for SP and PC.
pub fn byte_step(k: u16) -> u16
    ensures { result ≡ Spec.increment_of byte k }
{
    if k < 6 { 1 } else { 2 }
}

fn base(k: u16, r: u16, pc: u16) -> u16
    ensures { result ≡ Spec.index_base k r pc }
{
    if k == 7 { plus(pc, 2) } else { r }
}

// The word at an address is the address of the operand; a register moves.
fn deferred(image: &[u8], map: &[u8], at: u16, which: u16, v: u16) -> Result<Place, Blank>
    requires { Lent map.now image.now }
    ensures { Saw map.now (Spec.deferred at which v) image.now result }
{
    let a = board::load(image, map, at)?;
    Ok(Place::Mem(a, which, v))
}

// Modes 3 and 5: the register points to the operand's address.
fn defers(mode: u16) -> bool
    ensures { result ≡ Modes.defers mode }
{
    (mode % 2 == 1) & (mode != 1)
}

// What the register moves by; past an address, by 2.
fn stride(step: u16, mode: u16) -> u16
    ensures { result ≡ Modes.stride step mode }
{
    if mode % 2 == 1 { 2 } else { step }
}

// Where the register points, predecremented in modes 4 and 5.
fn pointer(r: u16, by: u16, mode: u16) -> u16
    ensures { result ≡ Modes.pointer r by mode }
{
    if 3 < mode { minus(r, by) } else { r }
}

// What it points to afterwards, postincremented in modes 2 and 3.
fn beyond(at: u16, by: u16, mode: u16) -> u16
    ensures { result ≡ Modes.beyond at by mode }
{
    if mode / 2 == 1 { plus(at, by) } else { at }
}

// Modes 1 to 5: the register points to the operand, or to its address.
fn pointed(image: &[u8], map: &[u8], step: u16, k: u16, r: u16, mode: u16) -> Result<Place, Blank>
    requires { Lent map.now image.now }
    ensures { Saw map.now (Modes.pointed step k r mode) image.now result }
{
    let by = stride(step, mode);
    let at = pointer(r, by, mode);
    let next = beyond(at, by, mode);
    if defers(mode) {
        return deferred(image, map, at, k, next);
    }
    Ok(Place::Mem(at, k, next))
}

// Where the operand of a mode and a register stands; a register operand, the commonest, is tried first.
pub fn locate(
    image: &[u8],
    map: &[u8],
    step: u16,
    k: u16,
    r: u16,
    pc: u16,
    mode: u16,
) -> Result<Place, Blank>
    requires { Lent map.now image.now }
    ensures { Saw map.now (Spec.locate step k r pc mode) image.now result }
{
    if mode == 0 {
        return Ok(Place::Reg);
    }
    if mode < 6 {
        return pointed(image, map, step, k, r, mode);
    }
    let x = board::load(image, map, pc)?;
    let at = plus(base(k, r, pc), x);
    let next = plus(pc, 2);
    if 6 < mode {
        return deferred(image, map, at, 7, next);
    }
    Ok(Place::Mem(at, 7, next))
}

// The state with the register moved that decoding moves.
pub fn moved(s: State, place: Place) -> State
    ensures { result ≡ Spec.moved s place }
{
    match place {
        Place::Reg => s,
        Place::Mem(_, which, v) => s.with_reg(which, v),
    }
}

// The word at a place; r is what its register holds. A byte answers a u8, so that no op code on bytes has to show its operand's range.
pub fn read_word(image: &[u8], map: &[u8], place: Place, r: u16) -> Result<u16, Blank>
    requires { Lent map.now image.now }
    ensures { Saw map.now (Spec.read_of word r place) image.now result }
{
    match place {
        Place::Reg => Ok(r),
        Place::Mem(a, _, _) => board::load(image, map, a),
    }
}

// The byte at a place; of a register, the lower byte.
pub fn read_byte(image: &[u8], map: &[u8], place: Place, r: u16) -> Result<u8, Blank>
    requires { Lent map.now image.now }
    ensures { Saw map.now (Spec.read_of byte r place) image.now result }
{
    match place {
        Place::Reg => Ok(low(r)),
        Place::Mem(a, _, _) => board::load_byte(image, map, a),
    }
}

// The register with an operand in it; a byte leaves the upper byte.
fn with_part(s: State, bytes: bool, k: u16, v: u16) -> State
    ensures { result ≡ Spec.with_part (size_of bytes) s k v }
{
    if bytes {
        return s.with_reg(k, arith::on_bytes::with_low(s.reg(k), low(v)));
    }
    s.with_reg(k, v)
}

pub fn write(
    s: State,
    image: &mut [u8],
    map: &[u8],
    log: &mut [u16; 32],
    bytes: bool,
    k: u16,
    place: Place,
    v: u16,
) -> Result<State, Blank>
    requires { Board map.now (beside image.old log.old) }
    ensures { Works map.now (Spec.write_to (size_of bytes) s k place v) image.old log.old result image.new log.new }
{
    match place {
        Place::Reg => Ok(with_part(s, bytes, k, v)),
        Place::Mem(a, _, _) => {
            board::write(image, map, log, bytes, a, v)?;
            Ok(s)
        }
    }
}
