// A listing of a stretch of an image, a line at a time.
#![tactic(auto)]

ghost use Rattle.std.specs.Prelude.{◌≡◌, [], ◌∷◌, ◌+◌, ◌*◌, ◌≤◌, ◌<◌, length, take, get_or};
ghost use Rattle.hexdigits.specs.Over.{Wrote, WroteAt};
ghost use Rattle.wordbytes.specs.Words.{word_at};
ghost use Rattle.board.specs.Work as Work;
ghost use Rattle.benchline.specs.Line.{dashes, field, fields};
ghost use Rattle.optext.specs.Line.{taken, text_of, word_text};
ghost use Rattle.listing.specs.Listing as Spec;
ghost use Rattle.refusal.specs.Page.{left};
ghost use Rattle.refusal.specs.Answer.{why_of};
ghost use Rattle.listing.specs.Calls as Call;

use benchline::{put_dashes, put_field};
use refusal::{Refusal, board_refusal};
use wordbytes::{byte_at, word_at};

// What stands at an address: nothing is fitted there; an op code that is cut; or a whole op code, with the number of its words. These
// are three cases, so no Option.
#[derive(Clone, Copy, PartialEq, Eq)]
pub enum CodeFound {
    Nothing,
    Cut,
    Whole(usize),
}

// A line that is listed: its length, and the address of the next line; there is none after the last.
#[derive(Clone, Copy, PartialEq, Eq)]
pub struct Listed {
    pub length: usize,
    pub next: Option<u16>,
}

fn fitted(map: &[u8], a: usize) -> bool
    ensures { result ≡ Work.fitted map.now a }
{
    byte_at(map, a / 256) != 0
}

// A fitted word inside the stretch?
fn stands(map: &[u8], last: usize, a: usize) -> bool
    ensures { result ≡ Spec.stands map.now last a }
{
    (a <= last) & fitted(map, a)
}

// All of n words?
fn all_stand(map: &[u8], last: usize, a: usize, n: usize) -> bool
    requires { a < 65536 }
    ensures { result ≡ Spec.all_stand map.now last a n }
{
    stands(map, last, a)
        & ((n < 2) | stands(map, last, a + 2))
        & ((n < 3) | stands(map, last, a + 4))
}

fn found_at(map: &[u8], image: &[u8], last: usize, a: usize) -> CodeFound
    requires { a < 65536 }
    ensures { (result ≡ Spec.found_at map.now image.now last a) × Spec.FoundFits (word_at image.now a) result }
{
    if !fitted(map, a) {
        return CodeFound::Nothing;
    }
    let n = optext::taken(word_at(image, a));
    if all_stand(map, last, a, n) {
        return CodeFound::Whole(n);
    }
    CodeFound::Cut
}

// The words that a line moves on by.
fn moves_on(found: CodeFound) -> usize
    ensures { result ≡ Spec.moves_on found }
{
    match found {
        CodeFound::Nothing => 1,
        CodeFound::Cut => 1,
        CodeFound::Whole(n) => n,
    }
}

// Four hex digits and a space, in their place.
fn field_at(text: &mut [u8], at: usize, x: u16) -> usize
    requires { at + 5 ≤ length text.old }
    ensures { WroteAt at (field x) text.old text.new result }
{
    at + put_field(&mut text[at..], x)
}

// The first n of the address and the three words after it.
fn put_fields(text: &mut [u8], values: [u16; 4], n: usize) -> usize
    requires { (20 ≤ length text.old) × (n ≤ 4) }
    ensures { Wrote (fields values n) text.old text.new result }
{
    let mut at = 0;
    for i in 0..n {
        at = field_at(text, at, values[i]);
    }
    at
}

// Four dashes in their place, for an address where nothing is fitted.
fn dashes_at(text: &mut [u8], at: usize) -> usize
    requires { at + 4 ≤ length text.old }
    ensures { WroteAt at dashes text.old text.new result }
{
    at + put_dashes(&mut text[at..])
}

// .WORD and four digits.
fn put_word(out: &mut [u8], w: u16) -> usize
    requires { 32 ≤ length out.old }
    ensures { Wrote (word_text w) out.old out.new result }
{
    match optext::write_word(w, out) {
        Ok(line) => line.length,
        Err(_) => unreachable!(),
    }
}

fn word_text_at(text: &mut [u8], at: usize, w: u16) -> usize
    requires { at + 32 ≤ length text.old }
    ensures { WroteAt at (word_text w) text.old text.new result }
{
    at + put_word(&mut text[at..], w)
}

// The text of a whole op code.
fn put_op(out: &mut [u8], words: &[u16]) -> usize
    requires { (32 ≤ length out.old) × (length words.now ≡ taken (get_or words.now 0 0)) }
    ensures { Wrote (text_of words.now) out.old out.new result × (result ≤ 24) }
{
    match optext::write(words, out) {
        Ok(line) => line.length,
        Err(_) => unreachable!(),
    }
}

fn op_at(text: &mut [u8], at: usize, words: &[u16]) -> usize
    requires { (at + 32 ≤ length text.old) × (length words.now ≡ taken (get_or words.now 0 0)) }
    ensures { WroteAt at (text_of words.now) text.old text.new result }
{
    at + put_op(&mut text[at..], words)
}

// The three kinds of lines.
fn put_nothing(text: &mut [u8], a: u16, w: u16, x: u16, y: u16) -> usize
    requires { 52 ≤ length text.old }
    ensures { Wrote (Spec.line a (w ∷ x ∷ y ∷ []) 0 dashes) text.old text.new result }
{
    let at = put_fields(text, [a, w, x, y], 1);
    dashes_at(text, at)
}

fn put_cut(text: &mut [u8], a: u16, w: u16, x: u16, y: u16) -> usize
    requires { 52 ≤ length text.old }
    ensures { Wrote (Spec.line a (w ∷ x ∷ y ∷ []) 1 (word_text w)) text.old text.new result }
{
    let at = put_fields(text, [a, w, x, y], 2);
    word_text_at(text, at, w)
}

fn put_whole(text: &mut [u8], a: u16, w: u16, x: u16, y: u16, n: usize) -> usize
    requires { (52 ≤ length text.old) × (n ≡ taken w) × (n ≤ 3) }
    ensures { Wrote (Spec.line a (w ∷ x ∷ y ∷ []) n (text_of (take n (w ∷ x ∷ y ∷ [])))) text.old text.new result }
{
    let words = [w, x, y];
    let at = put_fields(text, [a, w, x, y], n + 1);
    op_at(text, at, &words[..n])
}

// The line of what stands at the address a, where w, x and y are the words there.
fn put_line(text: &mut [u8], a: u16, w: u16, x: u16, y: u16, found: CodeFound) -> usize
    requires { (52 ≤ length text.old) × Spec.FoundFits w found }
    ensures { Wrote (Spec.line_of a (w ∷ x ∷ y ∷ []) found) text.old text.new result }
{
    match found {
        CodeFound::Nothing => put_nothing(text, a, w, x, y),
        CodeFound::Cut => put_cut(text, a, w, x, y),
        CodeFound::Whole(n) => put_whole(text, a, w, x, y, n),
    }
}

// An odd address, or a last below the first?
pub fn bad_stretch(a: u16, last: u16) -> bool
    ensures { result ≡ Call.bad_stretch a last }
{
    (a % 2 == 1) | (last % 2 == 1) | (last < a)
}

// 1, 2, 3, 23 or 8.
fn line_refusal(size: usize, map: &[u8], a: u16, last: u16, text: usize) -> Result<(), Refusal>
    ensures { why_of result ≡ Call.line_why size map.now a last text }
{
    board_refusal(size, map)?;
    if bad_stretch(a, last) {
        return Err(Refusal::NoStretch);
    }
    if text < 52 {
        return Err(Refusal::TextShort);
    }
    Ok(())
}

// The line is the last where the next address is past the stretch.
fn told(length: usize, last: u16, next: usize) -> Listed
    ensures { Call.lined_of result ≡ Call.lined length (Call.next_of last next) }
{
    if (last as usize) < next {
        return Listed { length, next: None };
    }
    Listed {
        length,
        next: Some(next as u16),
    }
}

// Writes the line at the address a, of a stretch that ends at `last`, in front of the text: address, words, text, a space apart,
// and no line end. The lines of a stretch are those at its first address and at each next address that is answered. Or 1, 2, 3, 23
// or 8.
pub fn list_line(
    image: &[u8],
    map: &[u8],
    a: u16,
    last: u16,
    text: &mut [u8],
) -> Result<Listed, Refusal>
    ensures { left (Call.listed_page result) text.new ≡ Call.line_call image.now map.now a last text.old }
{
    line_refusal(image.len(), map, a, last, text.len())?;
    let at = a as usize;
    let found = found_at(map, image, last as usize, at);
    let w = word_at(image, at);
    let x = word_at(image, at + 2);
    let y = word_at(image, at + 4);
    let n = put_line(text, a, w, x, y, found);
    Ok(told(n, last, at + moves_on(found) * 2))
}
