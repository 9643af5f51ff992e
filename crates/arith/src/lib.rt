// The op codes on two numbers, the branches' conditions, and a byte's place in a register.
#![tactic(auto)]

pub mod binary;
pub mod branch;
pub mod immediate;
pub mod on_bytes;
mod ops;
pub mod wide;
