// What the writers of text share: the letters of hex digits, upper case.
#![tactic(auto)]

ghost use Rattle.std.specs.Prelude.{◌≡◌};
ghost use Rattle.hexdigits.specs.Digits.{hex_of, hex4};
ghost use Rattle.hexdigits.specs.Over.{text_left, written};

const DIGITS: [u8; 16] = *b"0123456789ABCDEF";

// The letter of a hex digit, or 0 where there is no such digit.
pub fn hex(d: u16) -> u8
    ensures { result ≡ hex_of d }
{
    if d < 16 {
        let i = d as usize;
        return DIGITS[i];
    }
    0
}

// A text at the front; answers its length. A shorter buffer is left as it is, and the answer is 0. Byte by byte: `copy_from_slice`
// would have the library for C need memmove.
pub fn put_text(out: &mut [u8], text: &[u8]) -> usize
    ensures { text_left result out.new ≡ written text.now out.old }
{
    let n = text.len();
    if out.len() < n {
        return 0;
    }
    for (i, &byte) in text.iter().enumerate() {
        out[i] = byte;
    }
    n
}

// Four hex digits at the front; answers 4. A shorter buffer is left as it is, and the answer is 0.
pub fn put_hex4(out: &mut [u8], x: u16) -> usize
    ensures { text_left result out.new ≡ written (hex4 x) out.old }
{
    put_text(
        out,
        &[
            hex(x / 4096),
            hex(x / 256 % 16),
            hex(x / 16 % 16),
            hex(x % 16),
        ],
    )
}
