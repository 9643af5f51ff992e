// Reads a board and a job on standard input, powers up, and steps over the job's line words: a line for each step; a refused job is its
// line alone. The board is its four settings as for C, a byte each. Where the answer could not be written standard error says so.
#![tactic(auto)]

use job::READ_OF_JOB;
use printing::{first, put_line, put_refused, read_board, read_full, say_unless};
use refusal::{MOST_LINE_WORDS, Refusal};
use state::{Settings, State};
use std::io;
use std::io::Print;
use stepline::write_step;

// Steps over the line words, and writes each step's line.
fn put_steps(
    out: &impl Print,
    s: State,
    image: &mut [u8],
    map: &[u8],
    board: Settings,
    lines: &[u16],
) -> io::Result<()> {
    let mut text = [0u8; 288];
    let mut state = s;
    for (i, line) in lines.iter().enumerate() {
        let number = (i % 0x1_0000) as u16;
        match write_step(&mut text, state, image, map, board, *line, number) {
            Ok(shown) => {
                put_line(out, first(&text, shown.length)?)?;
                state = shown.turn.state;
            }
            Err(why) => return put_refused(out, u8::from(why)),
        }
    }
    Ok(())
}

fn step_up(
    out: &impl Print,
    image: &mut [u8],
    map: &[u8],
    board: Settings,
    lines: &[u16],
) -> io::Result<()> {
    match machine::power_up(image, map, board) {
        Ok(s) => put_steps(out, s, image, map, board, lines),
        Err(why) => put_refused(out, u8::from(why)),
    }
}

fn step_first(
    out: &impl Print,
    image: &mut [u8],
    map: &[u8],
    board: Settings,
    lines: &[u16],
    count: u16,
) -> io::Result<()> {
    match lines.get(..usize::from(count)) {
        Some(lines) => step_up(out, image, map, board, lines),
        None => put_refused(out, u8::from(Refusal::LinesLength)),
    }
}

// Reads the job, powers up and steps.
fn step_job(out: &impl Print, input: &[u8], board: Settings) -> io::Result<()> {
    let mut image = [0u8; 65536];
    let mut map = [0u8; 256];
    let mut lines = [0u16; MOST_LINE_WORDS];
    match job::read_job(input, &mut image, &mut map, &mut lines) {
        Ok(count) => step_first(out, &mut image, &map, board, &lines, count),
        Err(why) => put_refused(out, u8::from(why)),
    }
}

fn main(rt: HostRuntime) {
    let board = read_board(&mut rt.stdin());
    let mut input = [0u8; READ_OF_JOB];
    let got = read_full(&mut rt.stdin(), &mut input);
    let written = step_job(&rt.stdout(), &input[..got], board);
    say_unless(&rt.stderr(), written, b"steps");
}
