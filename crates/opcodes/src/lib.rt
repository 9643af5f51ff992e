// What the number in a field of an op code chooses: a kind of shift, an op code of its format.
#![tactic(auto)]

ghost use Rattle.std.specs.Prelude.{◌≡◌};
ghost use Rattle.opcodes.specs.Codes.{immediate_at, way_at, unary_at, binary_at, byte_binary_at};

pub mod fields;

// The op codes of format 6 with a number, in the order of bits 5 and 4.
#[derive(Clone, Copy, Debug, Eq, PartialEq)]
pub enum Immediate {
    Addi,
    Subi,
    Bici,
    Movi,
}

// The four kinds of shift, in the order of bits 5 and 4 of format 6.
#[derive(Clone, Copy, Debug, Eq, PartialEq)]
pub enum Way {
    RightRotate,
    LeftRotate,
    RightArith,
    LeftArith,
}

// The op codes 0A00 to 0CC0 and 8A00 to 8CC0 of format 7, in their order; Swap is SWAB and SWAD.
#[derive(Clone, Copy, Debug, Eq, PartialEq)]
pub enum Unary {
    Ror,
    Rol,
    Tst,
    Asl,
    Set,
    Clr,
    Asr,
    Swap,
    Com,
    Neg,
    Inc,
    Dec,
}

// The op codes of format 10 on words.
#[derive(Clone, Copy, Debug, Eq, PartialEq)]
pub enum Binary {
    Add,
    Sub,
    And,
    Bic,
    Bis,
    Xor,
    Cmp,
    Bit,
    Mov,
}

// The op codes of format 10 on bytes.
#[derive(Clone, Copy, Debug, Eq, PartialEq)]
pub enum ByteBinary {
    Cmpb,
    Movb,
    Bisb,
}

// Look-ups in the manual's tables, each with its last row past its end: From, which would hide that, is no plainer.

pub fn immediate_at(k: u16) -> Immediate
    ensures { result ≡ immediate_at k }
{
    match k {
        0 => Immediate::Addi,
        1 => Immediate::Subi,
        2 => Immediate::Bici,
        _ => Immediate::Movi,
    }
}

pub fn way_at(k: u16) -> Way
    ensures { result ≡ way_at k }
{
    match k {
        0 => Way::RightRotate,
        1 => Way::LeftRotate,
        2 => Way::RightArith,
        _ => Way::LeftArith,
    }
}

pub fn unary_at(k: u16) -> Unary
    ensures { result ≡ unary_at k }
{
    match k {
        0 => Unary::Ror,
        1 => Unary::Rol,
        2 => Unary::Tst,
        3 => Unary::Asl,
        4 => Unary::Set,
        5 => Unary::Clr,
        6 => Unary::Asr,
        7 => Unary::Swap,
        8 => Unary::Com,
        9 => Unary::Neg,
        10 => Unary::Inc,
        _ => Unary::Dec,
    }
}

pub fn binary_at(k: u16) -> Binary
    ensures { result ≡ binary_at k }
{
    match k {
        0 => Binary::Add,
        1 => Binary::Sub,
        2 => Binary::And,
        3 => Binary::Bic,
        4 => Binary::Bis,
        5 => Binary::Xor,
        6 => Binary::Cmp,
        7 => Binary::Bit,
        _ => Binary::Mov,
    }
}

pub fn byte_binary_at(k: u16) -> ByteBinary
    ensures { result ≡ byte_binary_at k }
{
    match k {
        0 => ByteBinary::Cmpb,
        1 => ByteBinary::Movb,
        _ => ByteBinary::Bisb,
    }
}
