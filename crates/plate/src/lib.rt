// The service sheet's plate: the format of an op code by its high byte. 1 stands for formats 1 to 4. The manual names formats by
// their numbers, so an enum would only spell these.
#![tactic(auto)]

ghost use Rattle.std.specs.Prelude.{◌≡◌, ◌/◌};
ghost use Rattle.plate.specs.Plate as Spec;
ghost use Rattle.plate.specs.Inner as Inner;

const PLATE: [u8; 256] = [
    1, 5, 5, 5, 5, 5, 5, 5, 6, 6, 7, 7, 7, 7, 8, 8, 10, 10, 10, 10, 10, 10, 10, 10, 10, 10, 10, 10,
    10, 10, 10, 10, 10, 10, 10, 10, 10, 10, 10, 10, 10, 10, 10, 10, 10, 10, 10, 10, 10, 10, 10, 10,
    10, 10, 10, 10, 10, 10, 10, 10, 10, 10, 10, 10, 10, 10, 10, 10, 10, 10, 10, 10, 10, 10, 10, 10,
    10, 10, 10, 10, 10, 10, 10, 10, 10, 10, 10, 10, 10, 10, 10, 10, 10, 10, 10, 10, 10, 10, 10, 10,
    10, 10, 10, 10, 10, 10, 10, 10, 10, 10, 10, 10, 9, 9, 9, 9, 9, 9, 9, 9, 9, 9, 9, 9, 9, 9, 9, 9,
    5, 5, 5, 5, 5, 5, 5, 5, 6, 6, 7, 7, 7, 7, 6, 6, 10, 10, 10, 10, 10, 10, 10, 10, 10, 10, 10, 10,
    10, 10, 10, 10, 10, 10, 10, 10, 10, 10, 10, 10, 10, 10, 10, 10, 10, 10, 10, 10, 10, 10, 10, 10,
    10, 10, 10, 10, 10, 10, 10, 10, 10, 10, 10, 10, 10, 10, 10, 10, 10, 10, 10, 10, 10, 10, 10, 10,
    10, 10, 10, 10, 10, 10, 10, 10, 10, 10, 10, 10, 10, 10, 10, 10, 10, 10, 10, 10, 10, 10, 10, 10,
    10, 10, 10, 10, 10, 10, 10, 10, 10, 10, 10, 10, 11, 11, 11, 11, 11, 11, 11, 11, 11, 11, 11, 11,
    11, 11, 11, 11,
];

// The format of an op code, by the table: for XCT and the assembler.
pub fn format(op: u16) -> u8
    ensures { result ≡ Spec.format_of (op / 256) }
{
    PLATE[(op / 256) as usize]
}

// The row 00 to 0F, by the lower half of the high byte.
fn row_0(k: u16) -> u8
    ensures { result ≡ Inner.row0 k }
{
    if k == 0 {
        return 1;
    }
    if k < 8 {
        return 5;
    }
    if k < 10 {
        return 6;
    }
    if k < 14 {
        return 7;
    }
    8
}

// The row 80 to 8F.
fn row_8(k: u16) -> u8
    ensures { result ≡ Inner.row8 k }
{
    if k < 8 {
        return 5;
    }
    if k < 10 {
        return 6;
    }
    if k < 14 {
        return 7;
    }
    6
}

// The same by the two halves of the high byte, for every step: a table is laid out anew, store by store, at each use.
pub fn format_by_halves(op: u16) -> u8
    ensures { result ≡ Spec.format_of (op / 256) }
{
    match op >> 12 {
        0 => row_0((op >> 8) % 16),
        7 => 9,
        8 => row_8((op >> 8) % 16),
        15 => 11,
        _ => 10,
    }
}
