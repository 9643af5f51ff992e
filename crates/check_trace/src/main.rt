// Checks another shop's trace of a job and says in words what it is found to be: check_trace JOB TRACE, two files by name. Where the
// answer could not be written standard error says so.
#![tactic(auto)]

ghost use Rattle.std.specs.Prelude.{◌≡◌, ◌≤◌, length};

use job::READ_OF_JOB;
use printing::{read_full, say_unless};
use refusal::MOST_LINE_WORDS;
use std::env::Env;
use std::io::{Cursor, ErrorKind, Print, Write};
use std::rt::Files;
use std::{fs, io};
use trace::{READ_OF_TRACE, Verdict};
use wordbytes::word_at;

// A field's name in the bench line's order.
fn name_of(field: u16) -> &'static str {
    match field {
        0 => "R0",
        1 => "R1",
        2 => "R2",
        3 => "R3",
        4 => "R4",
        5 => "R5",
        6 => "SP",
        7 => "PC",
        8 => "PS",
        _ => "the mode",
    }
}

// What stands in a field of the trace.
fn told(trace: &[u8], step: u16, field: u16) -> u16 {
    word_at(trace, 2 + usize::from(step) * 20 + usize::from(field) * 2)
}

fn put_verdict(out: &impl Print, found: Verdict, trace: &[u8]) -> io::Result<()> {
    match found {
        Verdict::Accepted => {
            let steps = word_at(trace, 0);
            println!(out; "accepted: {steps} steps")
        }
        Verdict::Wrong(step, field, right) => {
            let name = name_of(field);
            let told = told(trace, step, field);
            println!(out; "wrong at step {step}: {name} is {told:04X}, right is {right:04X}")
        }
        Verdict::Missing(step) => println!(out; "wrong at step {step}: the trace ends before it"),
        Verdict::Extra(step) => println!(out; "wrong at step {step}: the job ends before it"),
    }
}

fn answer(out: &impl Print, job: &[u8], trace: &[u8]) -> io::Result<()> {
    let mut image = [0u8; 65536];
    let mut map = [0u8; 256];
    let mut lines = [0u16; MOST_LINE_WORDS];
    match trace::check(job, trace, &mut image, &mut map, &mut lines) {
        Ok(found) => put_verdict(out, found, trace),
        Err(why) => {
            let number = u8::from(why);
            println!(out; "REFUSED {number}")
        }
    }
}

// What failed, a colon and the words of the error, which end at the number in brackets or at the first byte that is not of them.
fn say_failed(err: &impl Print, what: &[u8], error: io::Error) -> io::Result<()> {
    let mut text = Cursor::new([0u8; 128]);
    let _ = write!(text, "{error}");
    let bytes = text.into_inner();
    let words = bytes.split(|b| matches!(*b, 0 | b'(')).next();
    err.write_all(what)?;
    err.write_all(b": ")?;
    err.write_all(words.unwrap_or_default().trim_ascii_end())?;
    err.write_all(b"\n")
}

// Opens the file of a name. The library takes names of text alone.
fn open_named<R: Files>(rt: &R, name: &[u8]) -> io::Result<R::File> {
    match std::str::from_utf8(name) {
        Ok(path) => fs::open(rt, path),
        Err(_) => Err(io::Error::new(ErrorKind::InvalidInput, "not UTF-8")),
    }
}

// Opens the file that an argument names, or says why it can't.
fn opened<R: Files + Env>(rt: &R, err: &impl Print, which: usize) -> Option<R::File> {
    let mut path = [0u8; 4096];
    let Ok(n) = rt.arg(which, &mut path) else {
        let _ = println!(err; "check_trace JOB TRACE");
        return None;
    };
    let name = &path[..n];
    match open_named(rt, name) {
        Ok(file) => Some(file),
        Err(error) => {
            let _ = say_failed(err, name, error);
            None
        }
    }
}

fn trace_buffer() -> [u8; READ_OF_TRACE]
    ensures { 1310703 ≡ length result }
{
    [0; READ_OF_TRACE]
}

fn main(rt: HostRuntime) {
    let err = rt.stderr();
    let job_file = opened(&rt, &err, 1);
    let trace_file = opened(&rt, &err, 2);
    let (Some(mut job_file), Some(mut trace_file)) = (job_file, trace_file) else {
        return;
    };
    let mut job = [0u8; READ_OF_JOB];
    let job_length = read_full(&mut job_file, &mut job);
    let mut trace = trace_buffer();
    let trace_length = read_full(&mut trace_file, &mut trace);
    let written = answer(&rt.stdout(), &job[..job_length], &trace[..trace_length]);
    say_unless(&err, written, b"check_trace");
}
