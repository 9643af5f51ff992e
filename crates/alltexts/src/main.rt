// Writes the text of every first word, with the two next words 1234 and ABCD, reads each text again, and writes one line of totals.
#![tactic(auto)]

// The totals: texts written, characters in them, words taken, texts whose words came back, and a sum of all of it.
#[derive(Clone, Copy, Default)]
struct Totals {
    lines: u64,
    chars: u64,
    words: u64,
    back: u64,
    sum: u32,
}

// The sum with one number more: 31 times the sum, and the number.
fn mixed(sum: u32, x: u32) -> u32 {
    sum.wrapping_mul(31).wrapping_add(x)
}

// The sum with the characters of a text.
fn mixed_text(sum: u32, text: &[u8]) -> u32 {
    text.iter()
        .fold(sum, |so_far, c| mixed(so_far, u32::from(*c)))
}

// Is the text read as the words that it was written from?
fn again(text: &[u8], words: &[u16]) -> bool {
    let mut back = [0u16; 3];
    match optext::read(text, &mut back) {
        Ok(k) => back.get(..k) == Some(words),
        Err(_) => false,
    }
}

// The totals with one first word more.
fn with_word(t: Totals, w: u16) -> Totals {
    let words = [w, 0x1234, 0xABCD];
    let mut text = [0u8; 32];
    let Ok(written) = optext::write(&words, &mut text) else {
        return t;
    };
    match (text.get(..written.length), words.get(..written.taken)) {
        (Some(line), Some(taken)) => with_text(t, line, taken),
        _ => t,
    }
}

// The same, from its text and the words of it.
fn with_text(t: Totals, line: &[u8], words: &[u16]) -> Totals {
    let back = u64::from(again(line, words));
    let m = words.len();
    Totals {
        lines: t.lines.wrapping_add(1),
        chars: t.chars.wrapping_add(line.len() as u64),
        words: t.words.wrapping_add(m as u64),
        back: t.back.wrapping_add(back),
        sum: mixed(mixed_text(t.sum, line), (m % 4) as u32),
    }
}

fn all_words() -> Totals {
    let mut t = Totals::default();
    for w in 0..=u16::MAX {
        t = with_word(t, w);
    }
    t
}

fn main(rt: HostRuntime) {
    let t = all_words();
    let (lines, chars, words) = (t.lines, t.chars, t.words);
    let (back, sum) = (t.back, t.sum);
    let _ = println!(rt;
        "{lines} texts, {chars} characters, {words} words, {back} read again, sum {sum}"
    );
}
