// Bytes and words of lent bytes. A word has its low byte first.
#![tactic(auto)]

ghost use Rattle.std.specs.Prelude.{◌≡◌};
ghost use Rattle.wordbytes.specs.Words as Spec;

// The byte at a place, 0 past the end.
pub fn byte_at(b: &[u8], at: usize) -> u8
    ensures { result ≡ Spec.byte_at b.now at }
{
    if at < b.len() { b[at] } else { 0 }
}

// The word at a place; bytes past the end are 0. One test tells whether both bytes stand before the end.
pub fn word_at(b: &[u8], at: usize) -> u16
    ensures { result ≡ Spec.word_at b.now at }
{
    if b.len() < 2 {
        return byte_at(b, at) as u16;
    }
    if b.len() - 2 < at {
        return byte_at(b, at) as u16;
    }
    let low = byte_at(b, at);
    let high = byte_at(b, at + 1);
    low as u16 + high as u16 * 256
}

// The two bytes of a word.
pub fn low(v: u16) -> u8
    ensures { result ≡ Spec.low v }
{
    (v % 256) as u8
}

pub fn high(v: u16) -> u8
    ensures { result ≡ Spec.high v }
{
    (v / 256) as u8
}
