// The op codes on one number: 0A00 to 0CC0 on words, 8A00 to 8CC0 on bytes, IW2, SXT, ADC and SBC.
#![tactic(auto)]

pub mod by_code;
mod on_bytes;
pub mod on_words;
mod ops;
