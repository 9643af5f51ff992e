// Reads a job on standard input, powers up, runs, and prints one line. Where it could not be written standard error says so.
#![tactic(auto)]

use job::READ_OF_JOB;
use printing::{first, put_line, put_refused, read_full, say_unless};
use refusal::{MOST_LINE_WORDS, Refusal};
use std::io;
use std::io::Print;

// Prints a line that was written into a text, or a refusal's.
fn put_answer(out: &impl Print, text: &[u8], printed: Result<usize, Refusal>) -> io::Result<()> {
    match printed {
        Ok(n) => put_line(out, first(text, n)?),
        Err(why) => put_refused(out, u8::from(why)),
    }
}

fn main(rt: HostRuntime) {
    let mut input = [0u8; READ_OF_JOB];
    let got = read_full(&mut rt.stdin(), &mut input);
    let mut image = [0u8; 65536];
    let mut map = [0u8; 256];
    let mut lines = [0u16; MOST_LINE_WORDS];
    let mut text = [0u8; 64];
    let printed = runjob::run_job(&mut text, &input[..got], &mut image, &mut map, &mut lines);
    let written = put_answer(&rt.stdout(), &text, printed);
    say_unless(&rt.stderr(), written, b"bench");
}
