// Reads a board and a job on standard input, powers up, runs, and writes bench's line of that board, then the map's 256 bytes and the
// 256 of each fitted page as the run leaves them; a refused job is its line alone. The board is its four settings as for C, a byte
// each. Where the answer could not be written standard error says so.
#![tactic(auto)]

use job::READ_OF_JOB;
use machine::Ran;
use printing::{put_printed, put_refused, read_board, read_full, say_unless};
use refusal::{MOST_LINE_WORDS, Refusal};
use state::{Settings, State};
use std::io;
use std::io::Print;

fn put_end(out: &impl Print, ran: Ran, board: Settings) -> io::Result<()> {
    let mut text = [0u8; 64];
    let printed = endline::write_end_on(&mut text, ran, board);
    put_printed(out, &text, printed)
}

// Writes the pages of the image that are fitted.
fn put_pages(out: &impl Print, image: &[u8], map: &[u8]) -> io::Result<()> {
    for (page, fitted) in image.chunks(256).zip(map) {
        if *fitted != 0 {
            out.write_all(page)?;
        }
    }
    Ok(())
}

// Runs over line words from a state, and tells the end.
fn run_from(
    out: &impl Print,
    s: State,
    image: &mut [u8],
    map: &[u8],
    board: Settings,
    lines: &[u16],
) -> io::Result<()> {
    match machine::run(s, image, map, board, lines) {
        Ok(ran) => {
            put_end(out, ran, board)?;
            out.write_all(map)?;
            put_pages(out, image, map)
        }
        Err(why) => put_refused(out, u8::from(why)),
    }
}

fn run_up(
    out: &impl Print,
    image: &mut [u8],
    map: &[u8],
    board: Settings,
    lines: &[u16],
) -> io::Result<()> {
    match machine::power_up(image, map, board) {
        Ok(s) => run_from(out, s, image, map, board, lines),
        Err(why) => put_refused(out, u8::from(why)),
    }
}

fn run_first(
    out: &impl Print,
    image: &mut [u8],
    map: &[u8],
    board: Settings,
    lines: &[u16],
    count: u16,
) -> io::Result<()> {
    match lines.get(..usize::from(count)) {
        Some(lines) => run_up(out, image, map, board, lines),
        None => put_refused(out, u8::from(Refusal::LinesLength)),
    }
}

// Reads the job, powers up, runs and tells the end.
fn run_job(out: &impl Print, input: &[u8], board: Settings) -> io::Result<()> {
    let mut image = [0u8; 65536];
    let mut map = [0u8; 256];
    let mut lines = [0u16; MOST_LINE_WORDS];
    match job::read_job(input, &mut image, &mut map, &mut lines) {
        Ok(count) => run_first(out, &mut image, &map, board, &lines, count),
        Err(why) => put_refused(out, u8::from(why)),
    }
}

fn main(rt: HostRuntime) {
    let board = read_board(&mut rt.stdin());
    let mut input = [0u8; READ_OF_JOB];
    let got = read_full(&mut rt.stdin(), &mut input);
    let written = run_job(&rt.stdout(), &input[..got], board);
    say_unless(&rt.stderr(), written, b"afterrun");
}
