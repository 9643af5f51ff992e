// What the rest of a line says.
ghost use Rattle.std.specs.Prelude.{◌≡◌, ◌+◌, ◌≤◌, ◌<◌, IfSome, length};
ghost use Rattle.hexdigits.specs.Over.{Wrote, WroteAt};
ghost use Rattle.patchline.specs.Line.{operands_at, comma_at, first_in, second_in, at_of, label_in, filled_in, alias_of, tail_of, filled, is_number, is_directive, is_branch, is_sob, op, op_in, said_of, said_with, op_or, reaches, with_label, with_offset};
ghost use Rattle.patchline.specs.Line as Spec;

use crate::text::{is_name, part, place};
use hexdigits::put_text;
use optext::Op;
use optext::reading::{after, un_hex4};
use wordbytes::byte_at;
use wordmath::address::{minus, plus};

// How a line is taken.
#[derive(Clone, Copy, PartialEq, Eq)]
pub enum How {
    // 24: not known.
    Unknown,
    // .ORG.
    Origin,
    // Words as they stand, or none.
    Plain,
    // A branch, whose field a label may stand for.
    Branch,
    // SOB, the same.
    Sob,
    // An op code with operands that a label may stand for.
    Relative,
}

// How a line is taken, and its words; of .ORG the origin as if it were the first word.
#[derive(Clone, Copy, PartialEq, Eq)]
pub struct Said {
    pub how: How,
    pub op: Op,
}

// Where the operands begin.
fn operands_at(t: &[u8]) -> usize
    ensures { (result ≡ operands_at t.now) × (result ≤ length t.now + 1) }
{
    place(b' ', t, 0) + 1
}

fn comma_at(t: &[u8]) -> usize
    ensures { (result ≡ comma_at t.now) × (result ≤ length t.now + 1) }
{
    place(b',', t, operands_at(t))
}

pub fn first(t: &[u8]) -> &[u8]
    ensures { result.now ≡ first_in t.now }
{
    let from = operands_at(t);
    let to = comma_at(t);
    part(t, from, to)
}

pub fn second(t: &[u8]) -> &[u8]
    ensures { result.now ≡ second_in t.now }
{
    after(t, comma_at(t) + 1)
}

// The number of @ in front of an operand.
fn at(o: &[u8]) -> usize
    ensures { (result ≡ at_of o.now) × (result ≤ 1) }
{
    if byte_at(o, 0) == b'@' {
        return 1;
    }
    0
}

fn bare(o: &[u8]) -> &[u8]
    ensures { result.now ≡ Spec.bare_operand o.now }
{
    after(o, at(o))
}

// The label that an operand is, or nothing.
pub fn label_in(o: &[u8]) -> &[u8]
    ensures { result.now ≡ label_in o.now }
{
    let u = bare(o);
    if is_name(u) {
        return u;
    }
    &u[..0]
}

// A text from a place on.
fn put_at(out: &mut [u8], at: usize, s: &[u8]) -> usize
    requires { at + length s.now ≤ length out.old }
    ensures { WroteAt at s.now out.old out.new result }
{
    at + put_text(&mut out[at..], s)
}

// The mnemonic and its space, of an alias the op code's.
fn alias(h: &[u8]) -> &[u8]
    ensures { result.now ≡ alias_of h.now }
{
    if h == b"BHIS ".as_slice() {
        return b"BCC ";
    }
    if h == b"BLO ".as_slice() {
        return b"BCS ";
    }
    if h == b"CALL ".as_slice() {
        return b"JSR PC,";
    }
    if h == b"JMP ".as_slice() {
        return b"LEA PC,";
    }
    h
}

// An operand with digits where its label stands.
fn put_operand(out: &mut [u8], o: &[u8], d: &[u8]) -> usize
    requires { (42 ≤ length out.old) × (length o.now ≤ 33) × (length d.now ≤ 8) }
    ensures { Wrote (filled_in d.now o.now) out.old out.new result }
{
    if is_name(bare(o)) {
        let n = at(o);
        let m = put_text(out, part(o, 0, n));
        return put_at(out, m, d);
    }
    put_text(out, o)
}

fn put_operand_at(out: &mut [u8], at: usize, o: &[u8], d: &[u8]) -> usize
    requires { (at + 42 ≤ length out.old) × (length o.now ≤ 33) × (length d.now ≤ 8) }
    ensures { WroteAt at (filled_in d.now o.now) out.old out.new result }
{
    let n = put_operand(&mut out[at..], o, d);
    at + n
}

// The comma and the second operand, if there is one.
fn put_tail_at(out: &mut [u8], at: usize, t: &[u8], d: &[u8]) -> usize
    requires { (at + 43 ≤ length out.old) × (length t.now ≤ 33) × (length d.now ≤ 8) }
    ensures { WroteAt at (tail_of d.now t.now) out.old out.new result }
{
    if comma_at(t) < t.len() {
        let n = put_at(out, at, b",");
        return put_operand_at(out, n, second(t), d);
    }
    at
}

// The text with digits where its labels stand, in front of a lent one.
fn put_filled(out: &mut [u8], t: &[u8], d: &[u8]) -> usize
    requires { (128 ≤ length out.old) × (length t.now ≤ 33) × (length d.now ≤ 8) }
    ensures { Wrote (filled d.now t.now) out.old out.new result }
{
    let n = put_text(out, alias(part(t, 0, operands_at(t))));
    let m = put_operand_at(out, n, first(t), d);
    put_tail_at(out, m, t, d)
}

// The op code whose text it then is. Its text has 24 characters at most, and a text loses nine at most where digits and an
// op code's name stand for labels and an alias: so a text over 33 is no op code's.
fn filled_op(t: &[u8], d: &[u8]) -> Option<Op>
    requires { (2 ≤ length d.now) × (length d.now ≤ 8) }
    ensures { (op_or result ≡ op_in (filled d.now t.now)) × IfSome result (λ o. (0 < o.count) × (o.count ≤ 3)) }
{
    if 33 < t.len() {
        return None;
    }
    let mut out = [0u8; 128];
    let n = put_filled(&mut out, t, d);
    optext::op_of(&out[..n])
}

// Is it four digits?
fn is_number(t: &[u8]) -> bool
    ensures { result ≡ is_number t.now }
{
    let mut digits = [0u8; 4];
    hexdigits::put_hex4(&mut digits, un_hex4(t));
    t == digits.as_slice()
}

// Is it this directive and four digits?
fn is_directive(name: &[u8], t: &[u8]) -> bool
    ensures { result ≡ is_directive name.now t.now }
{
    let n = name.len();
    (part(t, 0, n) == name) & is_number(after(t, n))
}

fn is_branch(w: u16) -> bool
    ensures { result ≡ is_branch w }
{
    plate::format(w) == 5
}

fn is_sob(w: u16) -> bool
    ensures { result ≡ is_sob w }
{
    w / 512 == 59
}

fn word_op(count: usize, a: u16) -> Op
    ensures { result ≡ op count a }
{
    Op {
        count,
        a,
        b: 0,
        c: 0,
    }
}

fn says(how: How, op: Op) -> Said
    ensures { result ≡ Spec.says how op }
{
    Said { how, op }
}

fn said_with(field: Option<Op>, offset: Option<Op>) -> Said
    requires { IfSome offset (λ o. 0 < o.count) }
    ensures { result ≡ said_with (op_or field) (op_or offset) }
{
    if let Some(op) = field {
        if is_branch(op.a) {
            return says(How::Branch, op);
        }
        if is_sob(op.a) {
            return says(How::Sob, op);
        }
    }
    match offset {
        Some(op) => says(How::Relative, op),
        None => says(How::Unknown, word_op(0, 0)),
    }
}

// What the rest of a line says.
pub fn meaning(t: &[u8]) -> Said
    ensures { (result ≡ said_of t.now) × (result.op.count ≤ 3) }
{
    if t.is_empty() {
        return says(How::Plain, word_op(0, 0));
    }
    if let Some(op) = optext::op_of(t) {
        return says(How::Plain, op);
    }
    if is_directive(b".ORG ", t) {
        return says(How::Origin, word_op(0, un_hex4(after(t, 5))));
    }
    if is_directive(b".WORD ", t) {
        return says(How::Plain, word_op(1, un_hex4(after(t, 6))));
    }
    let field = filled_op(t, b"00");
    let offset = filled_op(t, b"0000(PC)");
    said_with(field, offset)
}

fn ahead(v: u16, h: u16) -> u16
    ensures { result ≡ Spec.ahead v h }
{
    minus(v, plus(h, 2))
}

fn behind(v: u16, h: u16) -> u16
    ensures { result ≡ Spec.behind v h }
{
    minus(plus(h, 2), v)
}

// Can a branch or SOB at h reach v?
pub fn reach(how: How, v: u16, h: u16) -> bool
    ensures { result ≡ reaches how v h }
{
    match how {
        How::Branch => plus(ahead(v, h), 256) < 512,
        How::Sob => behind(v, h) < 128,
        How::Unknown | How::Origin | How::Plain | How::Relative => true,
    }
}

fn with_offset(third: bool, v: u16, h: u16, o: Op) -> Op
    ensures { result ≡ with_offset third v h o }
{
    if third {
        let c = minus(v, plus(h, 6));
        return Op { c, ..o };
    }
    let b = minus(v, plus(h, 4));
    Op { b, ..o }
}

fn with_a(a: u16, o: Op) -> Op
    ensures { result ≡ Spec.with_a a o }
{
    Op { a, ..o }
}

// The words with the value of a label in them.
pub fn with_label(how: How, third: bool, v: u16, h: u16, o: Op) -> Op
    ensures { result ≡ with_label how third v h o }
{
    match how {
        How::Unknown | How::Origin | How::Plain => o,
        How::Branch => with_a(plus(o.a, ahead(v, h) / 2 % 256), o),
        How::Sob => with_a(plus(o.a, behind(v, h) / 2 % 64), o),
        How::Relative => with_offset(third, v, h, o),
    }
}
