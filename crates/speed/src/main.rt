// Runs the programs of compare/programs.txt, and prints where each ends. Standard input has the runs of each, a line each.
// Indexes and digits by hand: with `for`, iterators and formats here a step of these programs took up to nine instructions more.
#![tactic(auto)]

ghost use Rattle.std.specs.Prelude.{◌<◌};

use machine::{Ran, Tally};
use printing::read_full;
use refusal::Refusal;
use state::State;
use std::io::Print;

mod programs;

fn index(page: u8) -> usize
    ensures { result < 256 }
{
    page as usize
}

// Fits the pages of a program.
fn fit(map: &mut [u8; 256], pages: &[u8]) {
    let mut i: usize = 0;
    while i < pages.len() {
        let page = index(pages[i]);
        map[page] = 1;
        i += 1;
    }
}

// The even address that stands above a word.
fn address(word: u32) -> usize
    ensures { result < 65535 }
{
    (word / 131072 * 2) as usize
}

fn low(word: u32) -> u8 {
    (word % 256) as u8
}

// Puts the words of a program into the image.
fn put(image: &mut [u8; 65536], words: &[u32]) {
    let mut i: usize = 0;
    while i < words.len() {
        let word = words[i];
        let at = address(word);
        image[at] = low(word);
        image[at + 1] = low(word / 256);
        i += 1;
    }
}

fn wide(byte: u8) -> u32 {
    byte as u32
}

// The sum of all bytes.
fn sum(image: &[u8]) -> u32 {
    let mut total: u32 = 0;
    let mut i: usize = 0;
    while i < image.len() {
        total = std::num::wrapping_add_u32(total, wide(image[i]));
        i += 1;
    }
    total
}

// Bench's line of a run.
fn print_line(out: &impl Print, ran: Ran) {
    let mut text = [0u8; 61];
    let _ = endline::write_end(&mut text, ran);
    let _ = out.write_all(&text);
}

// The last hex digit of a number.
fn hex(number: u32) -> u8 {
    let n = (number % 16) as u8;
    if n < 10 { 48 + n } else { 55 + n }
}

fn print_nine(out: &impl Print, text: &[u8; 9]) {
    let _ = out.write_all(text);
}

// A space and eight hex digits.
fn print_eight(out: &impl Print, number: u32) {
    let mut text = *b" 00000000";
    let mut left = number;
    let mut i: usize = 8;
    while 0 < i {
        text[i] = hex(left);
        left = left / 16;
        i -= 1;
    }
    print_nine(out, &text);
}

// Where a program ends: its name, bench's line of the last run, the blanks of all runs, the sum of the image's bytes.
fn print_end(out: &impl Print, name: &[u8], last: Ran, blanks: u32, image: &[u8]) {
    let _ = out.write_all(b"end ");
    let _ = out.write_all(name);
    let _ = out.write_all(b" ");
    print_line(out, last);
    print_eight(out, blanks);
    print_eight(out, sum(image));
    let _ = out.write_all(b"\n");
}

// Sixteen line words, over and over.
fn fill(lines: &mut [u16; 4096], sixteen: &[u16; 16]) {
    let mut i: usize = 0;
    while i < 4096 {
        lines[i] = sixteen[i % 16];
        i += 1;
    }
}

// Each run goes on from the state and the image that the run before it left, over 4,096 line words.
fn repeat(
    out: &impl Print,
    name: &[u8],
    s: State,
    image: &mut [u8; 65536],
    map: &[u8; 256],
    lines: &[u16; 4096],
    runs: u16,
) {
    let tally = Tally {
        blanks: 0,
        first: None,
    };
    let mut last = Ran { state: s, tally };
    let mut blanks: u32 = 0;
    let mut i: u16 = 0;
    while i < runs {
        let state = last.state;
        if let Ok(ran) = machine::run(state, image, map, endline::bench_board(), lines) {
            let tally = ran.tally;
            blanks = std::num::wrapping_add_u32(blanks, tally.blanks as u32);
            last = ran;
        }
        i += 1;
    }
    print_end(out, name, last, blanks, image);
}

fn powered(image: &mut [u8; 65536], map: &[u8; 256]) -> Result<State, Refusal> {
    machine::power_up(image, map, endline::bench_board())
}

// A program is powered up once.
fn measure(
    out: &impl Print,
    name: &[u8],
    pages: &[u8],
    words: &[u32],
    sixteen: &[u16; 16],
    runs: u16,
) {
    let mut image = [0u8; 65536];
    let mut map = [0u8; 256];
    fit(&mut map, pages);
    put(&mut image, words);
    let mut lines = [0u16; 4096];
    fill(&mut lines, sixteen);
    if let Ok(s) = powered(&mut image, &map) {
        repeat(out, name, s, &mut image, &map, &lines, runs);
    }
}

// A program on quiet line words.
fn quietly(out: &impl Print, name: &[u8], pages: &[u8], words: &[u32], runs: u16) {
    measure(out, name, pages, words, &programs::QUIET_LINES, runs);
}

// The program of a number; each has a shape of its own.
fn measure_at(out: &impl Print, k: u16, runs: u16) {
    match k {
        0 => quietly(out, b"sob", &programs::SOB_PAGES, &programs::SOB, runs),
        1 => quietly(out, b"copy", &programs::COPY_PAGES, &programs::COPY, runs),
        2 => quietly(out, b"call", &programs::CALL_PAGES, &programs::CALL, runs),
        3 => quietly(out, b"byte", &programs::BYTE_PAGES, &programs::BYTE, runs),
        4 => quietly(
            out,
            b"storm",
            &programs::STORM_PAGES,
            &programs::STORM,
            runs,
        ),
        5 => measure(
            out,
            b"lines",
            &programs::LINES_PAGES,
            &programs::LINES,
            &programs::LINES_LINES,
            runs,
        ),
        6 => quietly(
            out,
            b"block",
            &programs::BLOCK_PAGES,
            &programs::BLOCK,
            runs,
        ),
        _ => {}
    }
}

// A digit more of a number of runs.
fn with_digit(runs: u16, digit: u8) -> u16 {
    if runs < 6553 {
        if 48 <= digit {
            if digit < 58 {
                return runs * 10 + ((digit - 48) as u16);
            }
        }
    }
    runs
}

// Each line of the input is the number of runs of the next program.
fn main(rt: HostRuntime) {
    let mut text = [0u8; 64];
    let n = read_full(&mut rt.stdin(), &mut text);
    let mut k: u16 = 0;
    let mut runs: u16 = 0;
    let mut i: usize = 0;
    while i < n {
        if text[i] == b'\n' {
            measure_at(&rt.stdout(), k, runs);
            k = std::num::wrapping_add_u16(k, 1);
            runs = 0;
        } else {
            runs = with_digit(runs, text[i]);
        }
        i += 1;
    }
}
