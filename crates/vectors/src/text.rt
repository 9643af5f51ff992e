// Parts of a text, and hex numbers.

// What stands before a mark, and behind it; or the whole text, where the mark isn't in it.
pub(crate) fn parted(text: &[u8], mark: u8) -> (&[u8], Option<&[u8]>) {
    let mut parts = text.splitn(2, |b| *b == mark);
    (parts.next().unwrap_or_default(), parts.next())
}

// The number of an upper-case hex digit.
fn digit(c: u8) -> Option<u16> {
    match c {
        b'0'..=b'9' => Some(u16::from(c - b'0')),
        b'A'..=b'F' => Some(u16::from(c - b'A') + 10),
        _ => None,
    }
}

// Hex digits as a number of 16 bits.
pub(crate) fn hex(word: &[u8]) -> Option<u16> {
    let mut value: u16 = 0;
    for c in word {
        value = value.checked_mul(16)?.checked_add(digit(*c)?)?;
    }
    if word.is_empty() { None } else { Some(value) }
}
