// Reads lines of standard input. The text of an op code is answered by its words, a line of one to three words in hex by its text;
// a line that is refused is printed with a mark under its column and the reason in words. An input of over 65,536 bytes is not
// answered, and standard error says so; it also says where an answer could not be written.
#![tactic(auto)]

use optext::reading::{after, un_hex4};
use optext::{ReadRefusal, WriteRefusal};
use printing::{first, line_end, put_line, put_spaces, read_full, say_unless};
use std::io;
use std::io::{Print, Read};

// Does a part of a line begin with a word in hex, and stand before a space if it goes on?
fn is_word(part: &[u8]) -> bool {
    let digits = part
        .iter()
        .take_while(|c| matches!(**c, b'0'..=b'9' | b'A'..=b'F'))
        .count();
    (digits == 4) & part.get(4).is_none_or(|c| *c == b' ')
}

// Is the line one to three words in hex?
fn is_words(line: &[u8]) -> bool {
    matches!(line.len(), 4 | 9 | 14) && line.chunks(5).all(|part| is_word(part))
}

// The word whose digits begin at a place.
fn word_at(line: &[u8], at: usize) -> u16 {
    un_hex4(after(line, at))
}

// Prints the line's text, whose op code has so many words; words after them are marked.
fn put_op(out: &impl Print, line: &[u8], text: &[u8], taken: usize) -> io::Result<()> {
    if taken == words_in(line) {
        return put_line(out, text);
    }
    put_marked(out, line, 5 * taken.min(3), "the op code has no more words")?;
    out.write_all(b"\n")
}

// Prints the text of the op code that the words of a line are.
fn put_text(out: &impl Print, line: &[u8], words: &[u16]) -> io::Result<()> {
    let mut text = [0u8; 32];
    match optext::write(words, &mut text) {
        Ok(written) => put_op(out, line, first(&text, written.length)?, written.taken),
        Err(WriteRefusal::TextShort | WriteRefusal::NoWords) => out.write_all(b"\n"),
        Err(WriteRefusal::WordMissing) => {
            put_refused(out, line, line.len(), "a next word is missing", 7)
        }
    }
}

// How many words a line of words has.
fn words_in(line: &[u8]) -> usize {
    line.len() / 5 + 1
}

// Prints the text of a line of words.
fn write_words(out: &impl Print, line: &[u8]) -> io::Result<()> {
    let words = [word_at(line, 0), word_at(line, 5), word_at(line, 10)];
    put_text(out, line, first(&words, words_in(line))?)
}

// Prints words, a space between two.
fn put_words(out: &impl Print, words: &[u16]) -> io::Result<()> {
    for (i, word) in words.iter().enumerate() {
        put_spaces(out, i.min(1))?;
        print!(out; "{word:04X}")?;
    }
    out.write_all(b"\n")
}

// Prints the line, a mark under its column, and the reason.
fn put_marked(out: &impl Print, line: &[u8], column: usize, why: &str) -> io::Result<()> {
    put_line(out, line)?;
    put_spaces(out, column)?;
    print!(out; "^ {why}")
}

// The same and the number of the refusal.
fn put_refused(
    out: &impl Print,
    line: &[u8],
    column: usize,
    why: &str,
    number: u8,
) -> io::Result<()> {
    put_marked(out, line, column, why)?;
    println!(out; " (refusal {number} at column {column})")
}

// Prints the words of a text.
fn read_text(out: &impl Print, line: &[u8]) -> io::Result<()> {
    let mut words = [0u16; 3];
    match optext::read(line, &mut words) {
        Ok(n) => put_words(out, first(&words, n)?),
        Err(ReadRefusal::WordsShort) => out.write_all(b"\n"),
        Err(ReadRefusal::EarlyEnd(c)) => put_refused(out, line, c, "the line ends too early", 32),
        Err(ReadRefusal::AfterText(c)) => put_refused(
            out,
            line,
            c,
            "the text is whole before this",
            31,
        ),
        Err(ReadRefusal::UnknownName(c)) => put_refused(out, line, c, "unknown mnemonic", 9),
        Err(ReadRefusal::BadOperand(c)) => put_refused(out, line, c, "bad operand", 30),
    }
}

// Answers a line, which its newline may end.
fn answer(out: &impl Print, whole: &[u8]) -> io::Result<()> {
    let line = &whole[..line_end(whole, 0)];
    if is_words(line) {
        return write_words(out, line);
    }
    read_text(out, line)
}

// Answers each line.
fn answer_all(out: &impl Print, input: &[u8]) -> io::Result<()> {
    for line in input.split_inclusive(|b| *b == b'\n') {
        answer(out, line)?;
    }
    Ok(())
}

// Is there a byte after those that were read?
fn more(input: &mut impl Read) -> bool {
    let mut next = [0u8; 1];
    0 < read_full(input, &mut next)
}

fn main(rt: HostRuntime) {
    let mut input = [0u8; 65536];
    let got = read_full(&mut rt.stdin(), &mut input);
    if got == input.len() && more(&mut rt.stdin()) {
        let _ = eprintln!(rt; "the input is longer than 65536 bytes");
        return;
    }
    let written = answer_all(&rt.stdout(), &input[..got]);
    say_unless(&rt.stderr(), written, b"text");
}
