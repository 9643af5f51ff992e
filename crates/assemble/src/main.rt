// Reads the source of a patch on standard input, a line of up to 32 bytes each, and writes the word section of a job on standard
// output; with a word after its name, each line's label and value instead, four bytes a line as the library has them. A source
// that is refused writes nothing there: standard error has the line, the reason in words and the number. It also says where the
// section could not be written.
#![tactic(auto)]

ghost use Rattle.std.specs.Prelude.{◌≡◌, ◌≤◌, ◌<◌, length, IfOk};

use assembler::{LONGEST_SECTION, MOST_LABELS, SourceRefusal};
use printing::{first, put_line, read_full, say_unless};
use refusal::Refusal;
use std::env::{Env, FillError};
use std::io;
use std::io::Print;

// A line's bytes, and one line more than a source may have.
const LINE: usize = 32;

const LINES: usize = 1025;

// The line of a number, from 0, has over 32 bytes.
#[derive(Clone, Copy)]
struct LongLine(usize);

// The text of a line: neither its newline is of it nor a CR directly before that.
fn text_of(whole: &[u8]) -> &[u8] {
    match whole.strip_suffix(b"\n") {
        Some(line) => line.strip_suffix(b"\r").unwrap_or(line),
        None => whole,
    }
}

// Puts a line in its place among the padded ones.
fn pad_line(source: &mut [u8], k: usize, line: &[u8])
    requires { (k < 1025) × (length source.old ≡ 32800) × (length line.now ≤ 32) }
{
    let at = LINE * k;
    source[at..at + line.len()].copy_from_slice(line);
}

// Pads each line, up to one more than a source may have, and answers how many these are.
fn pad(input: &[u8], source: &mut [u8]) -> Result<usize, LongLine>
    requires { length source.old ≡ 32800 }
    ensures { IfOk result (λ n. n ≤ 1025) }
{
    let mut lines = 0;
    for whole in input.split_inclusive(|b| *b == b'\n') {
        if LINES <= lines {
            break;
        }
        let line = text_of(whole);
        if LINE < line.len() {
            return Err(LongLine(lines));
        }
        pad_line(source, lines, line);
        lines += 1;
    }
    Ok(lines)
}

fn words_of(why: Refusal) -> &'static str {
    match why {
        Refusal::UnknownText => {
            "a line is no text; a label is one to six capitals, no hex number, not SP or PC"
        }
        Refusal::LabelAgain => "a line's label is already given",
        Refusal::LabelMissing => "no line gives a label that a line names",
        Refusal::OutOfReach =>
            "a branch further than -128 to 127 words, or SOB further than 0 to 63 back",
        Refusal::OutOfPlace =>
            "an odd origin, or words that overlap an earlier line's or run past FFFF",
        Refusal::SourceLines => "the source is not whole lines of 32 bytes, or over 1,024 of them",
        _ => "the output is too short",
    }
}

// Where the padding begins.
fn padding(line: &[u8]) -> usize {
    line.iter()
        .rposition(|b| *b != b' ')
        .map_or(0, |last| last + 1)
}

// The line as it was read, the reason and the number of the refusal.
fn say_refused_at(err: &impl Print, source: &[u8], why: Refusal, line: u16) -> io::Result<()> {
    if let Some(padded) = source.chunks_exact(LINE).nth(usize::from(line)) {
        put_line(err, first(padded, padding(padded))?)?;
    }
    let words = words_of(why);
    let refusal = u8::from(why);
    println!(err; "{words} (refusal {refusal} at line {line}, from 0)")
}

fn say_refused(err: &impl Print, source: &[u8], why: SourceRefusal) -> io::Result<()> {
    match why {
        SourceRefusal::Whole(why) => {
            let words = words_of(why);
            let refusal = u8::from(why);
            println!(err; "{words} (refusal {refusal})")
        }
        SourceRefusal::At(why, line) => say_refused_at(err, source, why, line),
    }
}

// Writes the first bytes of an answer.
fn put_answer(out: &impl Print, bytes: &[u8], n: u16) -> io::Result<()> {
    out.write_all(first(bytes, usize::from(n))?)
}

fn answer_section(out: &impl Print, err: &impl Print, source: &[u8]) -> io::Result<()> {
    let mut section = [0u8; LONGEST_SECTION];
    match assembler::assemble(source, &mut section) {
        Ok(n) => {
            say_unless(err, put_answer(out, &section, n), b"assemble");
            Ok(())
        }
        Err(why) => say_refused(err, source, why),
    }
}

fn answer_labels(out: &impl Print, err: &impl Print, source: &[u8]) -> io::Result<()> {
    let mut labels = [0u8; MOST_LABELS];
    match assembler::labels(source, &mut labels) {
        Ok(n) => {
            say_unless(err, put_answer(out, &labels, n), b"assemble");
            Ok(())
        }
        Err(why) => say_refused(err, source, why),
    }
}

// Does a word stand after the program's name? One that is too long for the buffer does too.
fn has_word(rt: &impl Env) -> bool {
    let mut word = [0u8; 1];
    !matches!(rt.arg(1, &mut word), Err(FillError::NotPresent))
}

// What is past the first 65,536 bytes is not needed: in those one line is too long, or there are too many.
fn main(rt: HostRuntime) {
    let mut input = [0u8; 65536];
    let got = read_full(&mut rt.stdin(), &mut input);
    let mut source = [b' '; LINE * LINES];
    let padded = pad(&input[..got], &mut source);
    let (out, err) = (rt.stdout(), rt.stderr());
    let _ = match padded {
        Ok(lines) if has_word(&rt) => answer_labels(&out, &err, &source[..LINE * lines]),
        Ok(lines) => answer_section(&out, &err, &source[..LINE * lines]),
        Err(LongLine(line)) => println!(err; "line {line}, from 0, is longer than 32 bytes"),
    };
}
