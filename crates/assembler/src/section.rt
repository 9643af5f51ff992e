// The words of a source by their addresses, and the word section that they make.
ghost use Rattle.std.specs.Prelude.{◌≡◌, ◌++◌, ◌+◌, ◌*◌, ◌≤◌, ◌<◌, length, take};
ghost use Rattle.hexdigits.specs.Over.{Wrote, WroteAt};
ghost use Rattle.assembler.specs.Source.{line_count, Starts};
ghost use Rattle.assembler.specs.Section.{section_entry, lower_of, higher_of, inserted, entered, words_placed, pair, entry_bytes, section_bytes, section_of, Inserts, Enters, most_words};
ghost use Rattle.assembler.specs.Answer.{longest_section};

use super::{MOST_STARTS, MOST_WORDS};
use crate::source::{count, here, text_at, words_in};
use optext::Op;
use wordmath::address::plus;

// An address and its word as one number.
fn entry(address: u16, word: u16) -> u32
    ensures { result ≡ section_entry address word }
{
    address as u32 * 65536 + word as u32
}

fn lower(x: u32, y: u32) -> u32
    ensures { result ≡ lower_of x y }
{
    if x < y {
        return x;
    }
    y
}

fn higher(x: u32, y: u32) -> u32
    ensures { result ≡ higher_of x y }
{
    if x < y {
        return y;
    }
    x
}

// One entry more, at its place among the first n.
fn insert(table: &mut [u32; MOST_WORDS], n: usize, x: u32) -> usize
    requires { (n < most_words) × (length table.old ≡ most_words) }
    ensures { Inserts table.old table.new n x result }
{
    let mut carry = x;
    for k in 0..n {
        let y = table[k];
        table[k] = lower(carry, y);
        carry = higher(carry, y);
    }
    table[n] = carry;
    n + 1
}

// The words of a line from an address on.
fn enter(table: &mut [u32; MOST_WORDS], n: usize, o: Op, h: u16) -> usize
    requires { (n + 3 ≤ most_words) × (length table.old ≡ most_words) }
    ensures { Enters table.old table.new n o h result }
{
    if o.count < 1 {
        return n;
    }
    let m = insert(table, n, entry(h, o.a));
    if o.count < 2 {
        return m;
    }
    let k = insert(table, m, entry(plus(h, 2), o.b));
    if o.count < 3 {
        return k;
    }
    insert(table, k, entry(plus(h, 4), o.c))
}

// The words of all lines.
pub(crate) fn place_all(
    source: &[u8],
    starts: &[u32; MOST_STARTS],
    table: &mut [u32; MOST_WORDS],
) -> usize
    requires { Starts source.now starts.now × (length table.old ≡ most_words) }
    ensures { (take result table.new ≡ words_placed source.now (line_count source.now)) × (result ≤ most_words) × (length table.new ≡ most_words) }
{
    let lines = count(source);
    let mut n = 0;
    for i in 0..lines {
        let h = here(source, starts, i);
        let o = words_in(source, starts, h, text_at(source, i));
        n = enter(table, n, o, h);
    }
    n
}

// An entry's bytes, in front of a lent part.
fn put_entry(out: &mut [u8], e: u32) -> usize
    requires { 4 ≤ length out.old }
    ensures { Wrote (entry_bytes e) out.old out.new result }
{
    out[0] = (e / 65536 % 256) as u8;
    out[1] = (e / 16777216 % 256) as u8;
    out[2] = (e % 256) as u8;
    out[3] = (e / 256 % 256) as u8;
    4
}

fn put_entry_at(out: &mut [u8], at: usize, e: u32) -> usize
    requires { at + 4 ≤ length out.old }
    ensures { WroteAt at (entry_bytes e) out.old out.new result }
{
    let n = put_entry(&mut out[at..], e);
    at + n
}

pub(crate) fn put_count(out: &mut [u8], n: usize) -> usize
    requires { 2 ≤ length out.old }
    ensures { Wrote (pair n) out.old out.new result }
{
    out[0] = (n % 256) as u8;
    out[1] = (n / 256 % 256) as u8;
    2
}

// The first n entries from a place on.
fn put_entries(out: &mut [u8], from: usize, table: &[u32; MOST_WORDS], n: usize) -> usize
    requires { (from + 4 * most_words ≤ length out.old) × (n ≤ most_words) × (length table.now ≡ most_words) }
    ensures { WroteAt from (section_bytes (take n table.now)) out.old out.new result }
{
    let mut at = from;
    for i in 0..n {
        at = put_entry_at(out, at, table[i]);
    }
    at
}

// The section of the first n entries.
pub(crate) fn put_section(out: &mut [u8], table: &[u32; MOST_WORDS], n: usize) -> usize
    requires { (longest_section ≤ length out.old) × (n ≤ most_words) × (length table.now ≡ most_words) }
    ensures { Wrote (section_of (take n table.now)) out.old out.new result }
{
    let at = put_count(out, n);
    put_entries(out, at, table, n)
}
