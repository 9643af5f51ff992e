// A line taken apart: its label, and the rest without its padding.
ghost use Rattle.std.specs.Prelude.{◌≡◌, ◌≤◌, length};
ghost use Rattle.patchline.specs.Text.{slice, find_from, past_of, is_register, is_name, without_padding, rest_from, label_of, rest_of};
ghost use Rattle.patchline.specs.Text as Spec;

use optext::reading::after;
use wordbytes::byte_at;

// What stands from a place on, up to another.
pub(crate) fn part(t: &[u8], a: usize, e: usize) -> &[u8]
    ensures { result.now ≡ slice a e t.now }
{
    let u = after(t, a);
    &u[..e.saturating_sub(a).min(u.len())]
}

// The first place of a byte from a place on, or the end.
pub(crate) fn place(c: u8, t: &[u8], from: usize) -> usize
    ensures { result ≡ find_from c t.now from }
{
    for i in from..t.len() {
        if t[i] == c {
            return i;
        }
    }
    from.max(t.len())
}

// How far a text has letters from A to `top` alone.
fn past(top: u8, t: &[u8]) -> usize
    ensures { (result ≡ past_of top t.now) × (result ≤ length t.now) }
{
    t.iter().take_while(|&&c| b'A' <= c && c <= top).count()
}

fn is_register(u: &[u8]) -> bool
    ensures { result ≡ is_register u.now }
{
    (u == b"SP".as_slice()) | (u == b"PC".as_slice())
}

// May a label have this name?
pub(crate) fn is_name(u: &[u8]) -> bool
    ensures { result ≡ is_name u.now }
{
    if 6 < u.len() {
        return false;
    }
    if past(b'Z', u) < u.len() {
        return false;
    }
    if past(b'F', u) < u.len() {
        return !is_register(u);
    }
    false
}

// Does a line begin with this label, a colon and a space?
pub fn gives(u: &[u8], line: &[u8]) -> bool
    ensures { result ≡ Spec.gives u.now line.now }
{
    let n = u.len();
    if n < line.len() {
        return (&line[..n] == u) & ((byte_at(line, n) == b':') & (byte_at(line, n + 1) == b' '));
    }
    false
}

// A line's label, or nothing.
pub fn label(line: &[u8]) -> &[u8]
    ensures { result.now ≡ label_of line.now }
{
    let n = past(b'Z', line);
    if is_name(&line[..n]) {
        if gives(&line[..n], line) {
            return &line[..n];
        }
        return &line[..0];
    }
    &line[..0]
}

// A text without its padding.
fn unpadded(t: &[u8]) -> &[u8]
    ensures { result.now ≡ without_padding t.now }
{
    let mut kept = t;
    while let Some((last, before)) = kept.split_last() {
        if *last != b' ' {
            return kept;
        }
        kept = before;
    }
    kept
}

// How far the rest of a line is behind its label, which has six letters at most.
fn skipped(n: usize) -> usize
    requires { n ≤ 6 }
    ensures { result ≡ rest_from n }
{
    if n == 0 {
        return 0;
    }
    n + 2
}

// The rest of a line, after its label.
pub fn rest(line: &[u8]) -> &[u8]
    ensures { result.now ≡ rest_of line.now }
{
    let n = label(line).len();
    unpadded(after(line, skipped(n)))
}
