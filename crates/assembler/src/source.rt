// A source of lines of 32 bytes: origins, labels, and why it is refused.
ghost use Rattle.std.specs.Prelude.{◌≡◌, ℕ, ◌+◌, ◌*◌, ◌≤◌, ◌<◌, length};
ghost use Rattle.optext.specs.First.{first_from};
ghost use Rattle.assembler.specs.Source.{line_count, line_at, text_at, said_at, is_origin, end_after, next_from, gives_at, giver_of, value_of, here_of, is_unknown, is_given, has_labels, lacks, overlaps, is_odd, is_far, fails, is_missing, misplaced, far, lowest, line_op, Starts, LineEnds, most_lines};
ghost use Rattle.assembler.specs.Source as Spec;

use super::{MOST_LINES, MOST_STARTS};
use optext::Op;
use patchline::oneline::{How, Said, first, label_in, meaning, reach, second, with_label};
use patchline::text::{gives, label, rest};

// Why a line is refused.
#[derive(Clone, Copy, PartialEq, Eq)]
pub(crate) enum Fault {
    // 24: unknown text.
    Text,
    // 25: label already given.
    Given,
    // 26: label missing.
    Missing,
    // 28: odd origin, or words that overlap an earlier line's or run past FFFF.
    Place,
    // 27: a branch or SOB that can't reach its label.
    Far,
}

// The number of lines.
pub(crate) fn count(source: &[u8]) -> usize
    ensures { result ≡ line_count source.now }
{
    source.len() / 32
}

// A line's 32 bytes.
pub(crate) fn line_at(source: &[u8], i: usize) -> &[u8]
    requires { i < line_count source.now }
    ensures { result.now ≡ line_at source.now i }
{
    let a = 32 * i;
    let e = a + 32;
    &source[a..e]
}

// What stands in a line after its label.
pub(crate) fn text_at(source: &[u8], i: usize) -> &[u8]
    requires { i < line_count source.now }
    ensures { result.now ≡ text_at source.now i }
{
    rest(line_at(source, i))
}

// What it says.
fn said_at(source: &[u8], i: usize) -> Said
    requires { i < line_count source.now }
    ensures { (result ≡ said_at source.now i) × (result.op.count ≤ 3) }
{
    meaning(text_at(source, i))
}

fn is_origin(how: How) -> bool
    ensures { result ≡ is_origin how }
{
    how == How::Origin
}

// The place after the words of a line that begins at o.
fn end_from(o: u32, s: Said) -> u32
    requires { (o < 100000) × (s.op.count ≤ 3) }
    ensures { (result ≡ end_after o s) × (result ≤ o + 6) }
{
    let n = s.op.count as u32;
    o + 2 * n
}

// The origin after it.
fn next_from(o: u32, s: Said) -> u32
    requires { (o < 100000) × (s.op.count ≤ 3) }
    ensures { (result ≡ next_from o s) × ((k : ℕ) → o ≤ 65535 + k → result ≤ 65535 + (k + 6)) }
{
    let how = s.how;
    if is_origin(how) {
        return s.op.a as u32;
    }
    end_from(o, s)
}

// The tables of the origins and of the ends.
pub(crate) fn survey(source: &[u8], starts: &mut [u32; MOST_STARTS], ends: &mut [u32; MOST_LINES])
    requires { (line_count source.now ≤ most_lines) × (length starts.old ≡ most_lines + 1) × (length ends.old ≡ most_lines) }
    ensures { Starts source.now starts.new × LineEnds source.now ends.new }
{
    let n = count(source);
    let mut o: u32 = 0;
    for i in 0..n {
        let s = said_at(source, i);
        let next = next_from(o, s);
        starts[i] = o;
        ends[i] = end_from(o, s);
        o = next;
    }
    starts[n] = o;
}

// Does a line give this label?
fn gives_at(source: &[u8], u: &[u8], k: usize) -> bool
    requires { k < line_count source.now }
    ensures { result ≡ gives_at source.now u.now k }
{
    gives(u, line_at(source, k))
}

// The first line that gives a label, or the number of lines.
fn giver(source: &[u8], u: &[u8]) -> usize
    ensures { (result ≡ giver_of source.now u.now) × (result ≤ line_count source.now) }
{
    let n = count(source);
    for i in 0..n {
        if gives_at(source, u, i) {
            return i;
        }
    }
    n
}

// A label's value.
fn value(source: &[u8], starts: &[u32; MOST_STARTS], u: &[u8]) -> u16
    requires { Starts source.now starts.now }
    ensures { result ≡ value_of source.now u.now }
{
    let k = giver(source, u);
    (starts[k] % 65536) as u16
}

// The address that a line begins at.
pub(crate) fn here(source: &[u8], starts: &[u32; MOST_STARTS], i: usize) -> u16
    requires { Starts source.now starts.now × (i < line_count source.now) }
    ensures { result ≡ here_of source.now i }
{
    (starts[i] % 65536) as u16
}

fn is_unknown(how: How) -> bool
    ensures { result ≡ is_unknown how }
{
    how == How::Unknown
}

fn has_labels(how: How) -> bool
    ensures { result ≡ has_labels how }
{
    matches!(how, How::Branch | How::Sob | How::Relative)
}

// 24: does no reading take the line?
fn unknown(source: &[u8], i: usize) -> bool
    requires { i < line_count source.now }
    ensures { result ≡ fails Fault.Text source.now i }
{
    let s = said_at(source, i);
    let how = s.how;
    is_unknown(how)
}

// 25: is this label of the line i given by an earlier one?
fn is_given(source: &[u8], i: usize, u: &[u8]) -> bool
    ensures { result ≡ is_given source.now i u.now }
{
    if u.len() == 0 {
        return false;
    }
    giver(source, u) < i
}

fn given(source: &[u8], i: usize) -> bool
    requires { i < line_count source.now }
    ensures { result ≡ fails Fault.Given source.now i }
{
    is_given(source, i, label(line_at(source, i)))
}

// 26: does no line give this label?
fn is_missing(source: &[u8], u: &[u8]) -> bool
    ensures { result ≡ is_missing source.now u.now }
{
    if u.len() == 0 {
        return false;
    }
    count(source) <= giver(source, u)
}

fn lack(source: &[u8], t: &[u8]) -> bool
    ensures { result ≡ lacks source.now t.now }
{
    let s = meaning(t);
    let how = s.how;
    if has_labels(how) {
        return is_missing(source, label_in(first(t))) | is_missing(source, label_in(second(t)));
    }
    false
}

// 28: do the words of two lines overlap?
fn overlap(
    source: &[u8],
    starts: &[u32; MOST_STARTS],
    ends: &[u32; MOST_LINES],
    i: usize,
    k: usize,
) -> bool
    requires { Starts source.now starts.now × LineEnds source.now ends.now × (i < line_count source.now) × (k < line_count source.now) }
    ensures { result ≡ overlaps source.now i k }
{
    (starts[i] < ends[k])
        & ((starts[k] < ends[i]) & ((starts[i] < ends[i]) & (starts[k] < ends[k])))
}

fn is_odd(s: Said) -> bool
    ensures { result ≡ is_odd s }
{
    let how = s.how;
    is_origin(how) & (s.op.a % 2 == 1)
}

// The first line whose words the words of the line i overlap, or i.
fn overlapped(
    source: &[u8],
    starts: &[u32; MOST_STARTS],
    ends: &[u32; MOST_LINES],
    i: usize,
) -> usize
    requires { Starts source.now starts.now × LineEnds source.now ends.now × (i < line_count source.now) }
    ensures { result ≡ first_from (overlaps source.now i) i 0 }
{
    for k in 0..i {
        if overlap(source, starts, ends, i, k) {
            return k;
        }
    }
    i
}

fn misplace(source: &[u8], starts: &[u32; MOST_STARTS], ends: &[u32; MOST_LINES], i: usize) -> bool
    requires { Starts source.now starts.now × LineEnds source.now ends.now × (i < line_count source.now) }
    ensures { result ≡ misplaced source.now i }
{
    if is_odd(said_at(source, i)) {
        return true;
    }
    if 65536 < ends[i] {
        return true;
    }
    overlapped(source, starts, ends, i) < i
}

// 27: is this label out of a line's reach?
fn is_far(source: &[u8], starts: &[u32; MOST_STARTS], how: How, h: u16, u: &[u8]) -> bool
    requires { Starts source.now starts.now }
    ensures { result ≡ is_far source.now how h u.now }
{
    if u.len() == 0 {
        return false;
    }
    !reach(how, value(source, starts, u), h)
}

fn too_far(source: &[u8], starts: &[u32; MOST_STARTS], h: u16, t: &[u8]) -> bool
    requires { Starts source.now starts.now }
    ensures { result ≡ far source.now h t.now }
{
    let s = meaning(t);
    let how = s.how;
    is_far(source, starts, how, h, label_in(first(t)))
        | is_far(source, starts, how, h, label_in(second(t)))
}

// Has a line this fault?
fn fail(
    f: Fault,
    source: &[u8],
    starts: &[u32; MOST_STARTS],
    ends: &[u32; MOST_LINES],
    i: usize,
) -> bool
    requires { Starts source.now starts.now × LineEnds source.now ends.now × (i < line_count source.now) }
    ensures { result ≡ fails f source.now i }
{
    match f {
        Fault::Text => unknown(source, i),
        Fault::Given => given(source, i),
        Fault::Missing => lack(source, text_at(source, i)),
        Fault::Place => misplace(source, starts, ends, i),
        Fault::Far => too_far(source, starts, here(source, starts, i), text_at(source, i)),
    }
}

// The lowest line with a fault, or the number of lines.
pub(crate) fn lowest_line(
    f: Fault,
    source: &[u8],
    starts: &[u32; MOST_STARTS],
    ends: &[u32; MOST_LINES],
) -> usize
    requires { Starts source.now starts.now × LineEnds source.now ends.now }
    ensures { (result ≡ lowest f source.now) × (result ≤ line_count source.now) }
{
    let n = count(source);
    for i in 0..n {
        if fail(f, source, starts, ends, i) {
            return i;
        }
    }
    n
}

// The words with a label's value in them, if there is a label.
fn put_label(
    source: &[u8],
    starts: &[u32; MOST_STARTS],
    how: How,
    third: bool,
    h: u16,
    u: &[u8],
    o: Op,
) -> Op
    requires { Starts source.now starts.now }
    ensures { result ≡ Spec.with_labels source.now how third h u.now o }
{
    if u.len() == 0 {
        return o;
    }
    with_label(how, third, value(source, starts, u), h, o)
}

// The words of a line, with its labels in them.
pub(crate) fn words_in(source: &[u8], starts: &[u32; MOST_STARTS], h: u16, t: &[u8]) -> Op
    requires { Starts source.now starts.now }
    ensures { result ≡ line_op source.now h t.now }
{
    let s = meaning(t);
    let how = s.how;
    let o = s.op;
    let third = o.count == 3;
    let p = put_label(source, starts, how, false, h, label_in(first(t)), o);
    put_label(source, starts, how, third, h, label_in(second(t)), p)
}
