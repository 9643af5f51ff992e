// Reads a job: three sections, each after its count, and perhaps a fourth. First the whole input is checked, then the lent buffers are filled.
#![tactic(auto)]

ghost use Rattle.std.specs.Prelude.{◌≡◌, ◌+◌, ◌≤◌, ◌<◌, length, set, IfOk, OnOk};
ghost use Rattle.job.specs.Job as Spec;
ghost use Rattle.job.specs.Job.{most_of, over_of, fit_page, why_page, why_address, why_line, why_key, why_entry, why_entries, why_count, why_left, why_job, fit_pages, after_section, words_stored, listed, JobRoom, Filled, why_read, job_page, job_of};
ghost use Rattle.wordbytes.specs.Words.{word_at};
ghost use Rattle.refusal.specs.Answer.{number, why_of};
ghost use Rattle.refusal.specs.Page.{left, first};

use refusal::{MOST_LINE_WORDS, Refusal};
use wordbytes::{byte_at, word_at};

// What is read of a job: the longest has 25,096 bytes, and one byte more shows that there are bytes left over.
pub const READ_OF_JOB: usize = 25097;

#[derive(Clone, Copy)]
pub enum Section {
    Pages,
    Words,
    Lines,
    ReadOnly,
}

// Is a section missing that may be? Then the job ends where its count would stand.
fn absent(s: Section, input: &[u8], at: usize) -> bool
    ensures { result ≡ Spec.absent s input.now at }
{
    match s {
        Section::Pages | Section::Words | Section::Lines => false,
        Section::ReadOnly => at == input.len(),
    }
}

// The bytes of one entry.
fn entry_size(s: Section) -> usize
    ensures { result ≡ Spec.entry_size s }
{
    match s {
        Section::Pages | Section::ReadOnly => 1,
        Section::Words => 4,
        Section::Lines => 2,
    }
}

// The most entries a section may have.
fn most(s: Section) -> u16
    ensures { result ≡ most_of s }
{
    match s {
        Section::Pages | Section::ReadOnly => 256,
        Section::Words | Section::Lines => 4096,
    }
}

// The refusal of a section that has more.
fn over(s: Section) -> Refusal
    ensures { number result ≡ over_of s }
{
    match s {
        Section::Pages | Section::ReadOnly => Refusal::ManyPages,
        Section::Words => Refusal::ManyWords,
        Section::Lines => Refusal::ManyLines,
    }
}

// What an entry's checks look at: the page, the address or the line word.
fn key_at(s: Section, input: &[u8], at: usize) -> u16
    ensures { result ≡ Spec.key_at s input.now at }
{
    match s {
        Section::Pages | Section::ReadOnly => byte_at(input, at) as u16,
        Section::Words | Section::Lines => word_at(input, at),
    }
}

// Notes the page of an entry as fitted, or as read-only.
fn note_page(s: Section, input: &[u8], at: usize, fitted: &mut [u8; 256])
    ensures { fitted.new ≡ fit_page s (Spec.key_at s input.now at) fitted.old }
{
    match s {
        Section::Pages => {
            let page = byte_at(input, at) as usize;
            fitted[page] = 1;
        }
        Section::Words | Section::Lines => {}
        Section::ReadOnly => {
            let page = byte_at(input, at) as usize;
            fitted[page] = 2;
        }
    }
}

// A page's number has to rise. `low` is the least that rises above the entry before.
fn page_refusal(low: u32, page: u16) -> Result<(), Refusal>
    ensures { why_of result ≡ why_page low page }
{
    if low <= page as u32 {
        Ok(())
    } else {
        Err(Refusal::PageNotRising)
    }
}

// A word's address: odd, not rising, in an unfitted page.
fn address_refusal(low: u32, address: u16, fitted: &[u8; 256]) -> Result<(), Refusal>
    ensures { why_of result ≡ why_address fitted.now low address }
{
    if address % 2 != 0 {
        return Err(Refusal::AddressOdd);
    }
    if (address as u32) < low {
        return Err(Refusal::AddressNotRising);
    }
    let page = (address / 256) as usize;
    if fitted[page] == 1 {
        Ok(())
    } else {
        Err(Refusal::AddressUnfitted)
    }
}

// A line word: bits 2, 4 to 6 and 12 to 15 are not used.
fn line_refusal(line: u16) -> Result<(), Refusal>
    ensures { why_of result ≡ why_line line }
{
    if refusal::plain(line) {
        Ok(())
    } else {
        Err(Refusal::JobLineBit)
    }
}

// A read-only page's number: not rising, or not fitted.
fn read_only_refusal(low: u32, page: u16, fitted: &[u8; 256]) -> Result<(), Refusal>
    ensures { why_of result ≡ Spec.why_read_only fitted.now low page }
{
    if (page as u32) < low {
        return Err(Refusal::ReadOnlyPage);
    }
    let at = (page % 256) as usize;
    if fitted[at] == 1 {
        Ok(())
    } else {
        Err(Refusal::ReadOnlyPage)
    }
}

// An entry's own checks.
fn key_refusal(s: Section, low: u32, key: u16, fitted: &[u8; 256]) -> Result<(), Refusal>
    ensures { why_of result ≡ why_key s fitted.now low key }
{
    match s {
        Section::Pages => page_refusal(low, key),
        Section::Words => address_refusal(low, key, fitted),
        Section::Lines => line_refusal(key),
        Section::ReadOnly => read_only_refusal(low, key, fitted),
    }
}

// An entry: it is cut short, or its own checks refuse it.
fn entry_refusal(
    s: Section,
    input: &[u8],
    at: usize,
    low: u32,
    fitted: &[u8; 256],
) -> Result<(), Refusal>
    requires { at ≤ length input.now }
    ensures { why_of result ≡ why_entry s input.now at low fitted.now }
{
    if input.len() - at < entry_size(s) {
        return Err(Refusal::JobEnds);
    }
    key_refusal(s, low, key_at(s, input, at), fitted)
}

// A section's count: it is cut short, or there are too many entries.
fn count_refusal(s: Section, input: &[u8], at: usize) -> Result<(), Refusal>
    requires { at ≤ length input.now }
    ensures { why_of result ≡ why_count s input.now at }
{
    if input.len() - at < 2 {
        return Err(Refusal::JobEnds);
    }
    if most(s) < word_at(input, at) {
        return Err(over(s));
    }
    Ok(())
}

// A section's count and entries, whose pages are noted: the place after the section, or the first refusal met.
fn entries_end(
    s: Section,
    input: &[u8],
    start: usize,
    fitted: &mut [u8; 256],
) -> Result<usize, Refusal>
    requires { start ≤ length input.now }
    ensures refused { why_of result ≡ first (why_count s input.now start) (why_entries s input.now (word_at input.now start) (start + 2) 0 fitted.old) }
    ensures place { IfOk result (λ end. (end ≡ after_section s input.now start) × (end ≤ length input.now)) }
    ensures noted { OnOk result (fitted.new ≡ fit_pages s input.now (word_at input.now start) (start + 2) fitted.old) }
{
    count_refusal(s, input, start)?;
    let mut at = start + 2;
    let mut low: u32 = 0;
    for _ in 0..word_at(input, start) {
        entry_refusal(s, input, at, low, fitted)?;
        low = key_at(s, input, at) as u32 + 1;
        note_page(s, input, at, fitted);
        at += entry_size(s);
    }
    Ok(at)
}

// The same, with a call for each section: so each gets a loop of its own, which doesn't ask at every entry what kind of entry it is.
// With one loop for all of them the check of a long job takes up to two and a half times as long.
fn section_end(
    s: Section,
    input: &[u8],
    start: usize,
    fitted: &mut [u8; 256],
) -> Result<usize, Refusal>
    requires { start ≤ length input.now }
    ensures refused { why_of result ≡ first (why_count s input.now start) (why_entries s input.now (word_at input.now start) (start + 2) 0 fitted.old) }
    ensures place { IfOk result (λ end. (end ≡ after_section s input.now start) × (end ≤ length input.now)) }
    ensures noted { OnOk result (fitted.new ≡ fit_pages s input.now (word_at input.now start) (start + 2) fitted.old) }
{
    match s {
        Section::Pages => entries_end(Section::Pages, input, start, fitted),
        Section::Words => entries_end(Section::Words, input, start, fitted),
        Section::Lines => entries_end(Section::Lines, input, start, fitted),
        Section::ReadOnly => entries_end(Section::ReadOnly, input, start, fitted),
    }
}

// Bytes left over.
fn rest_refusal(input: &[u8], at: usize) -> Result<(), Refusal>
    ensures { why_of result ≡ why_left input.now at }
{
    if at == input.len() {
        Ok(())
    } else {
        Err(Refusal::BytesLeft)
    }
}

// The first refusal met. Nothing lent is written.
fn first_refusal(input: &[u8]) -> Result<(), Refusal>
    ensures { why_of result ≡ why_job input.now }
{
    let mut fitted = [0u8; 256];
    let mut at: usize = 0;
    for s in [
        Section::Pages,
        Section::Words,
        Section::Lines,
        Section::ReadOnly,
    ] {
        if absent(s, input, at) {
            return Ok(());
        }
        at = section_end(s, input, at, &mut fitted)?;
    }
    rest_refusal(input, at)
}

// Sets the pages of n entries from a place on to a value: 1 fitted, 2 read-only.
fn mark_pages(value: u8, input: &[u8], from: usize, n: u16, map: &mut [u8])
    requires { (from < 4294967296) × (length map.old ≡ 256) }
    ensures { (map.new ≡ Spec.marked value input.now n from map.old) × (length map.new ≡ 256) }
{
    for k in 0..n {
        let page = byte_at(input, from + k as usize) as usize;
        map[page] = value;
    }
}

// A byte of the image; an address past its end is left alone.
fn put_byte(image: &mut [u8], address: usize, byte: u8)
    ensures { image.new ≡ set image.old address byte }
{
    if address < image.len() {
        image[address] = byte;
    }
}

// Stores the words of n entries from a place on at their addresses.
fn store_words(input: &[u8], from: usize, n: u16, image: &mut [u8])
    requires { from < 4294967296 }
    ensures { image.new ≡ words_stored input.now n from image.old }
{
    for k in 0..n {
        let at = from + k as usize * 4;
        let address = word_at(input, at) as usize;
        put_byte(image, address, byte_at(input, at + 2));
        put_byte(image, address + 1, byte_at(input, at + 3));
    }
}

// Lists the line words of n entries from a place on, from the start of the line buffer.
fn list_lines(input: &[u8], from: usize, n: u16, lines: &mut [u16])
    requires { from < 4294967296 }
    ensures { lines.new ≡ listed input.now n from 0 lines.old }
{
    for k in 0..n {
        let place = k as usize;
        put_line(lines, place, word_at(input, from + place * 2));
    }
}

// A line word; a place past the end is left alone.
fn put_line(lines: &mut [u16], k: usize, line: u16)
    ensures { lines.new ≡ set lines.old k line }
{
    if k < lines.len() {
        lines[k] = line;
    }
}

// Fills the lent buffers from a job that was found good, and answers the number of line words.
pub fn fill(input: &[u8], image: &mut [u8], map: &mut [u8], lines: &mut [u16]) -> u16
    requires { JobRoom image.old map.old lines.old }
    ensures { Filled input.now image.new map.new lines.new result }
{
    map.fill(0);
    let pages = word_at(input, 0);
    mark_pages(1, input, 2, pages, map);
    image.fill(0);
    let words_at = 2 + pages as usize;
    let words = word_at(input, words_at);
    store_words(input, words_at + 2, words, image);
    lines.fill(0);
    let lines_at = words_at + 2 + words as usize * 4;
    let count = word_at(input, lines_at);
    list_lines(input, lines_at + 2, count, lines);
    let read_only_at = lines_at + 2 + count as usize * 2;
    let read_only = word_at(input, read_only_at);
    mark_pages(2, input, read_only_at + 2, read_only, map);
    count
}

// The first refusal that applies: the lent buffers' lengths, then the job in reading order.
pub fn refusal(image: usize, map: usize, lines: usize, input: &[u8]) -> Result<(), Refusal>
    ensures { why_of result ≡ why_read image map lines input.now }
{
    if image != 65536 {
        return Err(Refusal::ImageLength);
    }
    if map != 256 {
        return Err(Refusal::MapLength);
    }
    if lines != MOST_LINE_WORDS {
        return Err(Refusal::LinesLength);
    }
    first_refusal(input)
}

// Reads a job into the lent buffers: the answer is the number of line words, or the first refusal, which changes no buffer.
pub fn read_job(
    input: &[u8],
    image: &mut [u8],
    map: &mut [u8],
    lines: &mut [u16],
) -> Result<u16, Refusal>
    ensures { left (job_page result) (image.new, map.new, lines.new)
        ≡ job_of input.now image.old map.old lines.old }
{
    refusal(image.len(), map.len(), lines.len(), input)?;
    Ok(fill(input, image, map, lines))
}
