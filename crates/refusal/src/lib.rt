// The refusals, and the checks of what the processor is lent: 1 to 5 and 35.
#![tactic(auto)]

ghost use Rattle.std.specs.Prelude.{◌≡◌, ◌+◌, ◌*◌, ◌/◌, ◌%◌, ◌<◌, ◌≤◌, ◌&&◌, length, nat_lt, slice_index};
ghost use Rattle.refusal.specs.Answer.{number, why_of};
ghost use Rattle.refusal.specs.Refusal as Spec;

// The refusals of documents 01 and 02, by what they refuse, each with its number. 6, 7, 9 and 30 to 32 are the text's alone: optext has them,
// beside 8 and 10, as the cases of its answers.
#[derive(Clone, Copy, Debug, PartialEq, Eq)]
pub enum Refusal {
    // What the processor is lent: the image is not 65,536 bytes, the map not 256, a map byte is over 2; a jumper number is over 3 or
    // the address register over 63; there are over 4,096 line words (for the job reader: the line buffer is not 4,096 words), an
    // unused bit of a line word is set.
    ImageLength = 1,
    MapLength = 2,
    MapByte = 3,
    Setup = 35,
    LinesLength = 4,
    LineBit = 5,
    // What is lent to be written is too short: a text; an output, or the words of a text that is read.
    TextShort = 8,
    OutputShort = 10,
    // A job: it ends inside a count or an entry.
    JobEnds = 11,
    // Its pages: over 256; not rising.
    ManyPages = 12,
    PageNotRising = 13,
    // Its words: over 4,096; an address that is odd, not rising, in an unfitted page.
    ManyWords = 14,
    AddressOdd = 15,
    AddressNotRising = 16,
    AddressUnfitted = 17,
    // Its line words: over 4,096; an unused bit is set. Bytes are left over.
    ManyLines = 18,
    JobLineBit = 19,
    BytesLeft = 20,
    // Its read-only pages: not rising, or not fitted.
    ReadOnlyPage = 22,
    // The functions for C: a buffer has a wrong length, or a byte over its range.
    NoState = 21,
    // A listing: an address is odd, or the last is below the first.
    NoStretch = 23,
    // The text for C: an odd number of bytes is lent for words.
    WordsOdd = 38,
    // The assembler: its source is not whole lines, or over 1,024 of them.
    SourceLines = 36,
    // A line's text is unknown; its label was given already; a label that it names is given nowhere.
    UnknownText = 24,
    LabelAgain = 25,
    LabelMissing = 26,
    // A branch or SOB doesn't reach its label; an odd origin, or words that overlap an earlier line's or run past FFFF.
    OutOfReach = 27,
    OutOfPlace = 28,
    // A trace: it ends inside its count or a state, or bytes are left over.
    TraceCut = 29,
    // The recorder: a reading is out of range; there were 4,096 scans already; a channel is over 15.
    ReadingOutOfRange = 33,
    ScansFull = 37,
    NoChannel = 34,
}

impl From<Refusal> for u8 {
    ghost from_gives = { λ why n. n ≡ number why };

    fn from(why: Refusal) -> u8 {
        why as u8
    }
}

// An answer's number for C: 0 where nothing is refused.
pub fn told(answer: Result<(), Refusal>) -> u8
    ensures { result ≡ why_of answer }
{
    match answer {
        Ok(()) => 0,
        Err(why) => u8::from(why),
    }
}

// The most line words of a run.
pub const MOST_LINE_WORDS: usize = 4096;

// Bits 2, 4 to 6 and 12 to 15 of a line word are not used.
pub fn plain(line: u16) -> bool
    ensures { result ≡ Spec.plain line }
{
    line / 4 % 2 + line / 16 % 8 + line / 4096 == 0
}

fn wide(b: u8) -> u32
    ensures { (result ≡ b) × (result < 256) }
{
    b as u32
}

// Four bytes side by side.
fn four(map: &[u8], k: usize) -> u32
    requires { k + 4 ≤ length map.now }
    ensures { (result ≡ slice_index map.now k + (slice_index map.now (k + 1) + (slice_index map.now (k + 2) + slice_index map.now (k + 3) * 256) * 256) * 256)
        × (slice_index map.now k < 256) × (slice_index map.now (k + 1) < 256) × (slice_index map.now (k + 2) < 256) × (slice_index map.now (k + 3) < 256) }
{
    let a = wide(map[k]);
    let b = wide(map[k + 1]);
    let c = wide(map[k + 2]);
    let d = wide(map[k + 3]);
    a + b * 256 + c * 65536 + d * 16777216
}

// Whether each of a number's four bytes is below 4.
fn low(x: u32) -> bool
    ensures { result ≡ nat_lt (x % 256) 4 && (nat_lt (x / 256 % 256) 4 && (nat_lt (x / 256 / 256 % 256) 4 && nat_lt (x / 256 / 256 / 256 % 256) 4)) }
{
    (x % 256 < 4)
        & ((x / 256 % 256 < 4) & ((x / 256 / 256 % 256 < 4) & (x / 256 / 256 / 256 % 256 < 4)))
}

// Four bytes at a time, and no test in the loop: a byte is 0, 1 or 2 where it is not above 3, nor with 1 added to it.
fn all_flat(map: &[u8]) -> bool
    requires { length map.now ≡ 256 }
    ensures { result ≡ Spec.all_of Spec.flat map.now }
{
    let mut seen: u32 = 0;
    let mut next: u32 = 0;
    for k in 0..64 {
        let w = four(map, k * 4);
        seen |= w;
        next |= w.wrapping_add(0x0101_0101);
    }
    low(seen) & low(next)
}

// Joined by |, the words are plain where each of them is: no test in the loop.
fn all_plain(lines: &[u16]) -> bool
    requires { length lines.now ≤ Spec.most_line_words }
    ensures { result ≡ Spec.all_of Spec.plain lines.now }
{
    let mut seen: u16 = 0;
    for &line in lines {
        seen |= line;
    }
    plain(seen)
}

// 1, 2 or 3.
pub fn board_refusal(size: usize, map: &[u8]) -> Result<(), Refusal>
    ensures { why_of result ≡ Spec.board_refusal size map.now }
{
    if size != 65536 {
        return Err(Refusal::ImageLength);
    }
    if map.len() != 256 {
        return Err(Refusal::MapLength);
    }
    if !all_flat(map) {
        return Err(Refusal::MapByte);
    }
    Ok(())
}

fn lines_refusal(lines: &[u16]) -> Result<(), Refusal>
    ensures { why_of result ≡ Spec.lines_refusal lines.now }
{
    if MOST_LINE_WORDS < lines.len() {
        return Err(Refusal::LinesLength);
    }
    if !all_plain(lines) {
        return Err(Refusal::LineBit);
    }
    Ok(())
}

// The jumpers of the power-up option, those of the halt option, the address register.
// Three numbers and no struct: theirs is `Settings` of state, and this crate, which the crates of text use without a processor, stands on none.
fn jumpers_fit(p: u8, h: u8, r: u8) -> bool
    ensures { result ≡ Spec.jumpers_fit p h r }
{
    (p < 4) & (h < 4) & (r < 64)
}

// 1, 2, 3 or 35.
pub fn power_refusal(size: usize, map: &[u8], p: u8, h: u8, r: u8) -> Result<(), Refusal>
    ensures { why_of result ≡ Spec.power_refusal size map.now p h r }
{
    board_refusal(size, map)?;
    if jumpers_fit(p, h, r) {
        Ok(())
    } else {
        Err(Refusal::Setup)
    }
}

pub fn step_refusal(size: usize, map: &[u8], p: u8, h: u8, r: u8, line: u16) -> Result<(), Refusal>
    ensures { why_of result ≡ Spec.step_refusal size map.now p h r line }
{
    power_refusal(size, map, p, h, r)?;
    if plain(line) {
        Ok(())
    } else {
        Err(Refusal::LineBit)
    }
}

pub fn run_refusal(
    size: usize,
    map: &[u8],
    p: u8,
    h: u8,
    r: u8,
    lines: &[u16],
) -> Result<(), Refusal>
    ensures { why_of result ≡ Spec.run_refusal size map.now p h r lines.now }
{
    power_refusal(size, map, p, h, r)?;
    lines_refusal(lines)
}
