// One vector: a board and a state are made as its line says, run, and looked at.
use super::place::{Target, named, small, word};
use super::text::{hex, parted};
use std::io::Print;

// How far a line is read: its column, the words there, and whether all is right so far.
#[derive(Clone, Copy)]
struct Progress {
    column: u16,
    words: u16,
    right: bool,
}

// What a word asks for: a value goes into a place, or is wanted there.
#[derive(Clone, Copy)]
struct Deed {
    place: Target,
    value: u16,
}

// The place of a word that has no '=': an op code word, after so many others, or a line word.
fn next_place(column: u16, words: u16) -> Option<Target> {
    match column {
        0 => Some(Target::Memory(0x0100 + words % 256 * 2)),
        2 => Some(Target::Line),
        _ => None,
    }
}

// What is no number has no deed, and neither has a value with no place.
fn read(p: Progress, text: &[u8]) -> Option<Deed> {
    let (place, value) = match parted(text, b'=') {
        (name, Some(value)) => (named(name), hex(value)),
        (value, None) => (next_place(p.column, p.words), hex(value)),
    };
    Some(Deed {
        place: place?,
        value: value?,
    })
}

// One step on the board, all of whose pages are fitted, and the third microm; its jumpers are 11 and 11.
fn step(state: &mut [u8], image: &mut [u8], line: u16) -> bool {
    let map = [1u8; 256];
    let settings = [1u8, 3, 3, 0];
    machine_c::wd16_step(state, image, &map, &settings, line) == 0
}

// Puts a value in its place, or compares it where it is wanted. Says whether that can be done and is right.
fn done(out: &impl Print, state: &mut [u8], image: &mut [u8], deed: Deed, wanted: bool) -> bool {
    match deed.place {
        Target::Memory(at) => word(out, image, at, deed.value, wanted),
        Target::Register(at) => word(out, state, at, deed.value, wanted),
        Target::Indicator(at) => small(out, state, at, deed.value, wanted),
        Target::Line => step(state, image, deed.value),
    }
}

// After a bar. There must be a line word.
fn next_column(p: Progress) -> Progress {
    Progress {
        column: p.column % 8 + 1,
        words: 0,
        right: p.right & ((p.column != 2) | (0 < p.words)),
    }
}

// After a word. Says which is wrong.
fn next_word(out: &impl Print, p: Progress, text: &[u8], right: bool) -> Progress {
    if !right {
        let _ = out.write_all(text);
        let _ = out.write_all(b" is wrong\n");
    }
    Progress {
        column: p.column,
        words: p.words % 256 + 1,
        right: p.right & right,
    }
}

fn with_word(
    out: &impl Print,
    state: &mut [u8],
    image: &mut [u8],
    p: Progress,
    text: &[u8],
) -> Progress {
    if text == b"|".as_slice() {
        return next_column(p);
    }
    let right = match read(p, text) {
        Some(deed) => done(out, state, image, deed, p.column == 3),
        None => false,
    };
    next_word(out, p, text, right)
}

// The words of a line behind its name, the colon and a space.
fn with_words(out: &impl Print, state: &mut [u8], image: &mut [u8], line: &[u8]) -> Progress {
    let mut p = Progress {
        column: 0,
        words: 0,
        right: true,
    };
    let (_, behind) = parted(line, b':');
    let words = behind.and_then(|rest| rest.get(1..)).unwrap_or_default();
    for word in words.split_inclusive(|b| *b == b' ') {
        p = with_word(
            out,
            state,
            image,
            p,
            word.strip_suffix(b" ").unwrap_or(word),
        );
    }
    p
}

// SP is 0200, PC is 0100, and all words are 0 before the sets. There must be a want.
pub(crate) fn tried(out: &impl Print, line: &[u8]) -> bool {
    let mut state = [
        0, 0, 0, 0, 0, 0, 0, 0, 0, 0, 0, 0, 0, 2, 0, 1, 0, 0, 0, 0, 0, 0, 0, 0,
    ];
    let mut image = [0u8; 65536];
    let p = with_words(out, &mut state, &mut image, line);
    p.right & (p.column == 3) & (0 < p.words)
}
