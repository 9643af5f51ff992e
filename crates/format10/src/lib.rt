// Format 10: two operands.
#![tactic(auto)]

ghost use Rattle.std.specs.Prelude.{◌≡◌, ◌%◌};
ghost use Rattle.board.specs.Work.{word, byte};
ghost use Rattle.board.specs.Exec.{beside, Lent, Board, Saw, Works};
ghost use Rattle.format10.specs.Format10 as Spec;
ghost use Rattle.format10.specs.Inner as Inner;

use board::Blank;
use opcodes::fields::{
    destination_mode, destination_register, high_digit, source_mode, source_register,
};
use opcodes::{Binary, ByteBinary};
use operand::{Place, byte_step, locate, moved, read_byte, read_word};
use state::State;
use wordbytes::low;
use wordmath::address::minus;

// The place of a word op code: ADD to XOR, CMP, BIT, MOV.
fn binary_number(op: u16) -> u16
    ensures { result ≡ Spec.binary_number op }
{
    if op < 0x8000 {
        minus(high_digit(op), 1)
    } else {
        minus(high_digit(op), 3)
    }
}

// CMP and BIT alter neither operand.
fn stores(b: Binary) -> bool
    ensures { result ≡ Spec.stores b }
{
    !matches!(b, Binary::Cmp | Binary::Bit)
}

fn settle(
    s: State,
    image: &mut [u8],
    map: &[u8],
    log: &mut [u16; 32],
    b: Binary,
    k: u16,
    place: Place,
    v: u16,
) -> Result<State, Blank>
    requires { Board map.now (beside image.old log.old) }
    ensures { Works map.now (Spec.settle b s k place v) image.old log.old result image.new log.new }
{
    if stores(b) {
        return operand::write(s, image, map, log, false, k, place, v);
    }
    Ok(s)
}

// The op code on words, with the source x; words and bytes have other op codes, and MOV and MOVB other ends: MOV, which does not read its destination, is tried first.
fn onto_words(
    s: State,
    image: &mut [u8],
    map: &[u8],
    log: &mut [u16; 32],
    op: u16,
    x: u16,
) -> Result<State, Blank>
    requires { Board map.now (beside image.old log.old) }
    ensures { Works map.now (Inner.onto_words (Spec.binary_code op) s op x) image.old log.old result image.new log.new }
{
    let to = destination_register(op);
    let mode = destination_mode(op);
    let opc = high_digit(op);
    let place = locate(image, map, 2, to, s.reg(to), s.regs.pc, mode)?;
    let u = moved(s, place);
    if opc == 11 {
        let done = wordmath::result::mov(x, u.flags);
        let w = u.with_flags(done.flags);
        return operand::write(w, image, map, log, false, to, place, x);
    }
    let y = read_word(image, map, place, u.reg(to))?;
    let b = opcodes::binary_at(binary_number(op));
    let done = arith::binary::binary(b, x, y, u.flags);
    settle(
        u.with_flags(done.flags),
        image,
        map,
        log,
        b,
        to,
        place,
        done.value,
    )
}

// Two operands of a word op code: the source is decoded and read first.
fn on_words(
    s: State,
    image: &mut [u8],
    map: &[u8],
    log: &mut [u16; 32],
    op: u16,
) -> Result<State, Blank>
    requires { Board map.now (beside image.old log.old) }
    ensures { Works map.now (Spec.on_words (Spec.binary_code op) s op) image.old log.old result image.new log.new }
{
    let from = source_register(op);
    let mode = source_mode(op);
    let source = locate(image, map, 2, from, s.reg(from), s.regs.pc, mode)?;
    let t = moved(s, source);
    let x = read_word(image, map, source, t.reg(from))?;
    onto_words(t, image, map, log, op, x)
}

// MOVB to a register extends the sign through bit 15.
fn move_byte(
    s: State,
    image: &mut [u8],
    map: &[u8],
    log: &mut [u16; 32],
    k: u16,
    place: Place,
    v: u16,
) -> Result<State, Blank>
    requires { Board map.now (beside image.old log.old) }
    ensures { Works map.now (Spec.move_byte s k place v) image.old log.old result image.new log.new }
{
    match place {
        Place::Reg => Ok(s.with_reg(k, arith::on_bytes::extend(low(v)))),
        Place::Mem(_, _, _) => operand::write(s, image, map, log, true, k, place, v),
    }
}

fn settle_byte(
    s: State,
    image: &mut [u8],
    map: &[u8],
    log: &mut [u16; 32],
    b: ByteBinary,
    k: u16,
    place: Place,
    v: u16,
) -> Result<State, Blank>
    requires { Board map.now (beside image.old log.old) }
    ensures { Works map.now (Spec.settle_byte b s k place v) image.old log.old result image.new log.new }
{
    match b {
        ByteBinary::Cmpb => Ok(s),
        ByteBinary::Movb => move_byte(s, image, map, log, k, place, v),
        ByteBinary::Bisb => operand::write(s, image, map, log, true, k, place, v),
    }
}

// The op code on bytes, with the source x: MOVB, which does not read its destination, is tried first.
fn onto_bytes(
    s: State,
    image: &mut [u8],
    map: &[u8],
    log: &mut [u16; 32],
    op: u16,
    x: u8,
) -> Result<State, Blank>
    requires { Board map.now (beside image.old log.old) }
    ensures { Works map.now (Inner.onto_bytes (Spec.byte_code op) s op x) image.old log.old result image.new log.new }
{
    let to = destination_register(op);
    let mode = destination_mode(op);
    let opc = high_digit(op);
    let step = byte_step(to);
    let place = locate(image, map, step, to, s.reg(to), s.regs.pc, mode)?;
    let u = moved(s, place);
    if opc == 13 {
        let done = wordmath::result::mov(x, u.flags);
        return move_byte(
            u.with_flags(done.flags),
            image,
            map,
            log,
            to,
            place,
            done.value,
        );
    }
    let y = read_byte(image, map, place, u.reg(to))?;
    let b = opcodes::byte_binary_at(minus(opc, 12));
    let done = arith::binary::byte_binary(b, x, y, u.flags);
    let w = u.with_flags(done.flags);
    settle_byte(w, image, map, log, b, to, place, done.value)
}

// Two operands of a byte op code: the source is decoded and read first.
fn on_bytes(
    s: State,
    image: &mut [u8],
    map: &[u8],
    log: &mut [u16; 32],
    op: u16,
) -> Result<State, Blank>
    requires { Board map.now (beside image.old log.old) }
    ensures { Works map.now (Spec.on_bytes (Spec.byte_code op) s op) image.old log.old result image.new log.new }
{
    let from = source_register(op);
    let mode = source_mode(op);
    let step = byte_step(from);
    let source = locate(image, map, step, from, s.reg(from), s.regs.pc, mode)?;
    let t = moved(s, source);
    let x = read_byte(image, map, source, t.reg(from))?;
    onto_bytes(t, image, map, log, op, x)
}

// CMPB C000, MOVB D000, BISB E000 on bytes, the others on words.
pub fn format10(
    s: State,
    image: &mut [u8],
    map: &[u8],
    log: &mut [u16; 32],
    op: u16,
) -> Result<State, Blank>
    requires { Board map.now (beside image.old log.old) }
    ensures { Works map.now (Spec.format10 s op) image.old log.old result image.new log.new }
{
    if op < 0xc000 {
        return on_words(s, image, map, log, op);
    }
    on_bytes(s, image, map, log, op)
}
