// The numbers of the processor: the widths of a byte and a word, a result with its indicators, the processor status word, and sums of addresses.
#![tactic(auto)]

pub mod address;
pub mod result;
pub mod status;
pub mod width;

// The indicators.
#[derive(Clone, Copy, Debug, Eq, PartialEq)]
pub struct Flags {
    pub n: bool,
    pub z: bool,
    pub v: bool,
    pub c: bool,
}

// A result and the indicators after it. A byte's result is below 256.
#[derive(Clone, Copy, Debug, Eq, PartialEq)]
pub struct Done {
    pub value: u16,
    pub flags: Flags,
}

// Two registers, REG and REG+1, and the indicators after an op code on both.
#[derive(Clone, Copy, Debug, Eq, PartialEq)]
pub struct Pair {
    pub low: u16,
    pub high: u16,
    pub flags: Flags,
}
