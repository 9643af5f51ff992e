// The text of one op code for C, written and read over plain lent bytes. c/hitchbriar.h has their layout.
#![tactic(auto)]

ghost use Rattle.std.specs.Prelude.{◌≡◌, [], ◌∷◌, ◌/◌, ◌≤◌, ◌<◌, length, take};
ghost use Rattle.hexdigits.specs.Over.{in_front_of};
ghost use Rattle.wordbytes.specs.Words.{bytes_in};
ghost use Rattle.refusal.specs.Page.{told};
ghost use Rattle.answer.specs.Answer.{three_words, place_words, SixBytes};
ghost use Rattle.optext_c.specs.Calls as Spec;

use optext::{ReadRefusal, WriteRefusal};
use refusal::Refusal;
use wordbytes::{high, low, word_at};

// The text's own refusals, in the numbers that C is told and no one else: no words, a needed next word is missing.
const NO_WORDS: u8 = 6;

const WORD_MISSING: u8 = 7;

// And those with a column: an unknown mnemonic, a bad operand, a character after a whole text, an early end.
const UNKNOWN_NAME: u8 = 9;

const BAD_OPERAND: u8 = 30;

const AFTER_TEXT: u8 = 31;

const EARLY_END: u8 = 32;

// The answer's three words.
fn put_answer(answer: &mut [u8], a: usize, b: usize, c: usize)
    requires { SixBytes answer.old × (a < 65536) × (b < 65536) × (c < 65536) }
    ensures { answer.new ≡ three_words a b c }
{
    answer::put(answer, a as u16, b as u16, c as u16);
}

// How many of the first three words so many bytes have.
fn lent(bytes: usize) -> usize
    ensures { (result ≡ Spec.lent (bytes / 2)) × (result ≤ 3) }
{
    (bytes / 2).min(3)
}

// Writes the text of the op code that begins the words into the text buffer; the answer is the line's length, the words taken,
// and 0. Or 21, 38, 8, 6 or 7.
#[unsafe(no_mangle)]
pub extern "C" fn wd16_write_text(words: &[u8], text: &mut [u8], answer: &mut [u8]) -> u8
    ensures { told result (text.new, answer.new) ≡ Spec.write_call words.now text.old answer.old }
{
    if let Err(why) = answer::refusal(answer) {
        return u8::from(why);
    }
    let bytes = words.len();
    if bytes % 2 != 0 {
        return u8::from(Refusal::WordsOdd);
    }
    let given = [word_at(words, 0), word_at(words, 2), word_at(words, 4)];
    let n = lent(bytes);
    match optext::write(&given[..n], text) {
        Ok(line) => {
            put_answer(answer, line.length, line.taken, 0);
            0
        }
        Err(WriteRefusal::TextShort) => u8::from(Refusal::TextShort),
        Err(WriteRefusal::NoWords) => NO_WORDS,
        Err(WriteRefusal::WordMissing) => WORD_MISSING,
    }
}

// The first n of three words, in front of the bytes.
fn put_words(out: &mut [u8], w: u16, x: u16, y: u16, n: usize)
    requires { (6 ≤ length out.old) × (1 ≤ n) × (n ≤ 3) }
    ensures { out.new ≡ in_front_of (bytes_in (take n (w ∷ x ∷ y ∷ []))) out.old }
{
    out[0] = low(w);
    out[1] = high(w);
    if n == 1 {
        return;
    }
    out[2] = low(x);
    out[3] = high(x);
    if n == 2 {
        return;
    }
    out[4] = low(y);
    out[5] = high(y);
}

// A refusal with its column.
fn refused_at(answer: &mut [u8], column: usize, why: u8) -> u8
    requires { SixBytes answer.old × (column < 65536) }
    ensures { (result ≡ why) × (answer.new ≡ place_words column) }
{
    put_answer(answer, 0, 0, column);
    why
}

// Reads a whole lent text into the words' bytes; the answer is the number of words, 0 and 0, or for 9, 30, 31 and 32 it is 0, 0
// and the column. Or 21, 38 or 10.
#[unsafe(no_mangle)]
pub extern "C" fn wd16_read_text(text: &[u8], words: &mut [u8], answer: &mut [u8]) -> u8
    ensures { Spec.ReadCall text.now words.old answer.old (told result (words.new, answer.new)) }
{
    if let Err(why) = answer::refusal(answer) {
        return u8::from(why);
    }
    if words.len() % 2 != 0 {
        return u8::from(Refusal::WordsOdd);
    }
    if words.len() < 6 {
        return u8::from(Refusal::OutputShort);
    }
    let mut given = [word_at(words, 0), word_at(words, 2), word_at(words, 4)];
    match optext::read(text, &mut given) {
        Ok(n) => {
            put_words(words, given[0], given[1], given[2], n);
            put_answer(answer, n, 0, 0);
            0
        }
        Err(ReadRefusal::WordsShort) => u8::from(Refusal::OutputShort),
        Err(ReadRefusal::EarlyEnd(column)) => refused_at(answer, column, EARLY_END),
        Err(ReadRefusal::AfterText(column)) => refused_at(answer, column, AFTER_TEXT),
        Err(ReadRefusal::UnknownName(column)) => refused_at(answer, column, UNKNOWN_NAME),
        Err(ReadRefusal::BadOperand(column)) => refused_at(answer, column, BAD_OPERAND),
    }
}
