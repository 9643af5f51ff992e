// What the programs share: lines and refusals on an output, what is said on standard error where they could not be written, reading
// until a buffer is full, a board's settings and the lines of an input.
#![tactic(auto)]

ghost use Rattle.std.specs.Prelude.{◌≡◌, ◌≤◌, ◌<◌, ◌==◌, true, not, length, take};
ghost use Rattle.std.specs.Result.{IsOkAnd, is_err};
ghost use Rattle.std.specs.List.{prefix_len};
ghost use Rattle.printing.specs.Lines as Spec;

use refusal::Refusal;
use state::Settings;
use std::io;
use std::io::{ErrorKind, Print, Read};

// The first n of the bytes of a text, or of words. Where there are fewer there is no answer to write.
pub fn first<T>(all: &[T], n: usize) -> io::Result<&[T]>
    ensures whole { n ≤ length all.now → IsOkAnd result (λ s. s.now ≡ take n all.now) }
    ensures none { length all.now < n → is_err result ≡ true }
{
    Ok(all.get(..n).ok_or(ErrorKind::InvalidInput)?)
}

// A text and the end of the line.
pub fn put_line(out: &impl Print, text: &[u8]) -> io::Result<()> {
    out.write_all(text)?;
    out.write_all(b"\n")
}

pub fn put_spaces(out: &impl Print, n: usize) -> io::Result<()> {
    for _ in 0..n {
        out.write_all(b" ")?;
    }
    Ok(())
}

// A line that was printed into a text.
pub fn put_printed(
    out: &impl Print,
    text: &[u8],
    printed: Result<usize, Refusal>,
) -> io::Result<()> {
    match printed {
        Ok(n) => put_line(out, first(text, n)?),
        Err(_) => Err(ErrorKind::InvalidInput.into()),
    }
}

// bench's line of a refusal: REFUSED and its number.
pub fn put_refused(out: &impl Print, why: u8) -> io::Result<()> {
    let mut text = [0u8; 16];
    let printed = benchline::write_refused(&mut text, why);
    put_printed(out, &text, printed)
}

// Says on standard error that a program's answer could not be written, where it was not.
pub fn say_unless(err: &impl Print, written: io::Result<()>, program: &[u8]) {
    if written.is_err() {
        let _ = err.write_all(program);
        let _ = err.write_all(b": the answer could not be written\n");
    }
}

// Reads until the buffer is full, the input ends or a read fails, and answers how many bytes it put at the buffer's start. No method
// of the library stops at all three and says how far it came.
pub fn read_full(input: &mut impl Read, buffer: &mut [u8]) -> usize
    ensures { result ≤ length buffer.new }
{
    let mut done = 0;
    while done < buffer.len() {
        let Ok(n) = input.read(&mut buffer[done..]) else {
            return done;
        };
        if n == 0 {
            return done;
        }
        done += n;
    }
    done
}

// A board's four settings, a byte each as for C. What the input has too little of is 0.
pub fn read_board(input: &mut impl Read) -> Settings {
    let mut bytes = [0u8; 4];
    read_full(input, &mut bytes);
    let [blocks, powerup, halt, register] = bytes;
    Settings {
        blocks: blocks != 0,
        powerup,
        halt,
        register,
    }
}

// Where the line of a text ends that begins at a place.
pub fn line_end(t: &[u8], from: usize) -> usize
    ensures { result ≡ Spec.line_ends_at t.now from }
{
    if t.len() < from {
        return from;
    }
    from + length_before(&t[from..])
}

// How many bytes stand before the first newline.
fn length_before(t: &[u8]) -> usize
    ensures { result ≡ prefix_len (λ b. not (b == 10)) t.now }
{
    t.iter().take_while(|b| **b != b'\n').count()
}
