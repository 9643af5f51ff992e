// Reads a job on standard input and writes its trace, the bytes that check_trace accepts; a refused job, and a trace that could not
// be written, are told on standard error.
#![tactic(auto)]

use job::READ_OF_JOB;
use printing::{first, read_full, say_unless};
use refusal::MOST_LINE_WORDS;
use std::io;
use std::io::Print;
use trace::LONGEST_TRACE;

// Writes the first bytes of what a trace was made in.
fn put_trace(out: &impl Print, bytes: &[u8], n: usize) -> io::Result<()> {
    out.write_all(first(bytes, n)?)
}

fn main(rt: HostRuntime) {
    let mut input = [0u8; READ_OF_JOB];
    let got = read_full(&mut rt.stdin(), &mut input);
    let mut image = [0u8; 65536];
    let mut map = [0u8; 256];
    let mut lines = [0u16; MOST_LINE_WORDS];
    let mut out = [0u8; LONGEST_TRACE];
    match trace::make(&input[..got], &mut out, &mut image, &mut map, &mut lines) {
        Ok(n) => {
            let written = put_trace(&rt.stdout(), &out, n);
            say_unless(&rt.stderr(), written, b"make_trace");
        }
        Err(why) => {
            let number = u8::from(why);
            let _ = eprintln!(rt; "REFUSED {number}");
        }
    }
}
