// Shifts of a register, a byte or a pair of registers, and what they leave. low is REG, high is REG+1.
#![tactic(auto)]

pub mod counted;
pub mod one_bit;
mod shifted;
pub mod signed;
mod turning;

// A number that is being shifted and the C flag beside it.
#[derive(Clone, Copy, Debug, Eq, PartialEq)]
pub(crate) struct BitsAndC {
    pub x: u32,
    pub c: bool,
}
