// What a vector sets and looks at: words of the image, and the bytes of a state as c/hitchbriar.h lays them out.
use super::text::hex;
use std::io::Print;
use wordbytes::{byte_at, high, low};

#[derive(Clone, Copy)]
pub enum Target {
    // A word of the image.
    Memory(u16),
    // R0 to R5, SP, PC: a word of the state.
    Register(u16),
    // NZVC, I2: a byte of the state.
    Indicator(u16),
    // Where a line word goes: the board is stepped.
    Line,
}

// The place of a name. An address is even, and has one digit, three or four.
pub(crate) fn named(name: &[u8]) -> Option<Target> {
    match name {
        [b'R', n @ b'0'..=b'5'] => Some(Target::Register(u16::from(*n - b'0') * 2)),
        [b'S', b'P'] => Some(Target::Register(12)),
        [b'P', b'C'] => Some(Target::Register(14)),
        [b'I', b'2'] => Some(Target::Indicator(17)),
        [_, _] => None,
        [b'N', b'Z', b'V', b'C'] => Some(Target::Indicator(16)),
        _ => hex(name)
            .filter(|at| *at % 2 == 0)
            .map(|at| Target::Memory(at)),
    }
}

// Says which byte stands where another is wanted.
fn same(out: &impl Print, has: u8, wanted: u8) -> bool {
    if has == wanted {
        return true;
    }
    let _ = print!(out; "{has:02x} is there: ");
    false
}

// Compares a byte where it is wanted, else puts it.
fn byte(out: &impl Print, buffer: &mut [u8], at: usize, value: u8, wanted: bool) -> bool {
    if wanted {
        return same(out, byte_at(buffer, at), value);
    }
    if let Some(place) = buffer.get_mut(at) {
        *place = value;
    }
    true
}

// The same of the low byte of a value and of its high byte.
pub(crate) fn word(out: &impl Print, buffer: &mut [u8], at: u16, value: u16, wanted: bool) -> bool {
    let first = byte(out, buffer, usize::from(at), low(value), wanted);
    let second = byte(out, buffer, usize::from(at) + 1, high(value), wanted);
    first & second
}

// A value of one byte.
pub(crate) fn small(
    out: &impl Print,
    buffer: &mut [u8],
    at: u16,
    value: u16,
    wanted: bool,
) -> bool {
    let right = byte(out, buffer, usize::from(at), low(value), wanted);
    right & (value < 256)
}
