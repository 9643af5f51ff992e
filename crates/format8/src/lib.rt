// Format 8: the block moves. One element is one step.
#![tactic(auto)]

ghost use Rattle.std.specs.Prelude.{◌≡◌};
ghost use Rattle.board.specs.Work.{size_of};
ghost use Rattle.board.specs.Exec.{beside, Board, Works};
ghost use Rattle.format8.specs.Format8 as Spec;

use board::Blank;
use opcodes::fields::{block_destination, block_source, format8_code};
use state::State;
use wordmath::address::{minus, plus};

// Words or bytes; what is added to the source's register after an element, and what to the destination's.
#[derive(Clone, Copy)]
pub struct BlockMove {
    pub bytes: bool,
    pub source: u16,
    pub destination: u16,
}

fn row_from(bytes: bool, source: u16, destination: u16) -> BlockMove
    ensures { result ≡ Spec.row_from bytes source destination }
{
    BlockMove {
        bytes,
        source,
        destination,
    }
}

// The eight op codes, an arm for each; down by n is up by 65,536 - n.
fn row_at(k: u16) -> BlockMove
    ensures { result ≡ Spec.row_at k }
{
    match k {
        0 => row_from(false, 2, 2), // 0E00 MBWU
        1 => row_from(false, 0xfffe, 0xfffe), // 0E40 MBWD
        2 => row_from(true, 1, 1), // 0E80 MBBU
        3 => row_from(true, 0xffff, 0xffff), // 0EC0 MBBD
        4 => row_from(false, 2, 0), // 0F00 MBWA
        5 => row_from(true, 1, 0), // 0F40 MBBA
        6 => row_from(false, 0, 2), // 0F80 MABW
        _ => row_from(true, 0, 1), // 0FC0 MABB
    }
}

// The byte or the word at a is moved to b.
fn transfer(
    image: &mut [u8],
    map: &[u8],
    log: &mut [u16; 32],
    bytes: bool,
    a: u16,
    b: u16,
) -> Result<(), Blank>
    requires { Board map.now (beside image.old log.old) }
    ensures { Works map.now (Spec.transfer (size_of bytes) a b) image.old log.old result image.new log.new }
{
    let v = board::read(image, map, bytes, a)?;
    board::write(image, map, log, bytes, b, v)
}

// REG ← REG + n.
fn onward(s: State, k: u16, n: u16) -> State
    ensures { result ≡ Spec.onward s k n }
{
    s.with_reg(k, plus(s.reg(k), n))
}

// Both registers move, the source's first; R0 ← R0 - 1.
fn registers_moved(row: BlockMove, s: State, i: u16, j: u16) -> State
    ensures { result ≡ Spec.registers_moved row s i j }
{
    onward(
        onward(onward(s, i, row.source), j, row.destination),
        0,
        0xffff,
    )
}

// IF R0 is not 0, PC ← the op code's address.
fn again(s: State, t: State) -> State
    ensures { result ≡ Spec.again s t }
{
    if t.regs.r0 == 0 {
        return t;
    }
    t.with_pc(minus(s.regs.pc, 2))
}

// One element: the source register and the destination register contain the addresses.
pub fn format8(
    s: State,
    image: &mut [u8],
    map: &[u8],
    log: &mut [u16; 32],
    op: u16,
) -> Result<State, Blank>
    requires { Board map.now (beside image.old log.old) }
    ensures { Works map.now (Spec.format8 s op) image.old log.old result image.new log.new }
{
    let row = row_at(format8_code(op));
    let i = block_source(op);
    let j = block_destination(op);
    transfer(image, map, log, row.bytes, s.reg(i), s.reg(j))?;
    Ok(again(s, registers_moved(row, s, i, j)))
}
