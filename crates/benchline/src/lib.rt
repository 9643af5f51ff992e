// The one line that bench prints, written into a lent text buffer from plain numbers.
#![tactic(auto)]

ghost use Rattle.std.specs.Prelude.{◌≡◌, ◌+◌, ◌*◌, ◌≤◌, ◌<◌, length};
ghost use Rattle.benchline.specs.Line.{space, dashes, field, fields, mode_digit, place_text, first_text, line_text, name, decimal, refused_text, printed_page, print_of};
ghost use Rattle.hexdigits.specs.Over.{Wrote, WroteAt};
ghost use Rattle.hexdigits.specs.Over as Over;
ghost use Rattle.refusal.specs.Page.{left};

use hexdigits::{hex, put_hex4, put_text};
use refusal::Refusal;

// A space, and the same in its place of the text.
fn put_space(out: &mut [u8]) -> usize
    requires { 1 ≤ length out.old }
    ensures { Wrote space out.old out.new result }
{
    put_text(out, b" ")
}

fn space_at(text: &mut [u8], at: usize) -> usize
    requires { at + 1 ≤ length text.old }
    ensures { WroteAt at space text.old text.new result }
{
    at + put_space(&mut text[at..])
}

// Four hex digits and a space at the front; answers 5. A shorter buffer is left as it is, and the answer is 0.
pub fn put_field(out: &mut [u8], x: u16) -> usize
    ensures { Over.text_left result out.new ≡ Over.written (field x) out.old }
{
    if out.len() < 5 {
        return 0;
    }
    let n = put_hex4(out, x);
    space_at(out, n)
}

// The mode's digit and a space.
fn put_mode(out: &mut [u8], mode: u8) -> usize
    requires { 2 ≤ length out.old }
    ensures { Wrote (mode_digit mode) out.old out.new result }
{
    put_text(out, &[hex((mode % 16) as u16), b' '])
}

// Four dashes in the same way, for a place or an address that there is not.
pub fn put_dashes(out: &mut [u8]) -> usize
    ensures { Over.text_left result out.new ≡ Over.written dashes out.old }
{
    put_text(out, b"----")
}

// A place or an address in four hex digits, or four dashes.
fn put_place(out: &mut [u8], place: Option<u16>) -> usize
    requires { 4 ≤ length out.old }
    ensures { Wrote (place_text place) out.old out.new result }
{
    match place {
        Some(x) => put_hex4(out, x),
        None => put_dashes(out),
    }
}

// A field goes into its place of the text; the answer is the place after it.
fn field_at(text: &mut [u8], at: usize, x: u16) -> usize
    requires { at + 5 ≤ length text.old }
    ensures { WroteAt at (field x) text.old text.new result }
{
    at + put_field(&mut text[at..], x)
}

// The mode's digit in its place.
fn mode_at(text: &mut [u8], at: usize, mode: u8) -> usize
    requires { at + 2 ≤ length text.old }
    ensures { WroteAt at (mode_digit mode) text.old text.new result }
{
    at + put_mode(&mut text[at..], mode)
}

// The same in its place of the text.
fn place_at(text: &mut [u8], at: usize, place: Option<u16>) -> usize
    requires { at + 4 ≤ length text.old }
    ensures { WroteAt at (place_text place) text.old text.new result }
{
    at + put_place(&mut text[at..], place)
}

// The first blank's place and the address that it told.
fn put_first(out: &mut [u8], place: Option<u16>, address: Option<u16>) -> usize
    requires { 9 ≤ length out.old }
    ensures { Wrote (first_text place address) out.old out.new result }
{
    let n = put_place(out, place);
    let after = space_at(out, n);
    place_at(out, after, address)
}

fn first_at(text: &mut [u8], at: usize, place: Option<u16>, address: Option<u16>) -> usize
    requires { at + 9 ≤ length text.old }
    ensures { WroteAt at (first_text place address) text.old text.new result }
{
    at + put_first(&mut text[at..], place, address)
}

// The registers' fields, one after the other.
fn put_registers(text: &mut [u8], regs: [u16; 8]) -> usize
    requires { 40 ≤ length text.old }
    ensures { Wrote (fields regs 8) text.old text.new result }
{
    let mut at = 0;
    for i in 0..8 {
        at = field_at(text, at, regs[i]);
    }
    at
}

// Writes bench's line: R0 to R5, SP and PC, PS with bits 15 and 14 clear, the mode's digit, the blanks, the first blank's
// place and the address that it told. It has 61 characters. The answer is the line's length; or 8 where the text is too short for it,
// which is then left as it is.
pub fn write_line(
    text: &mut [u8],
    regs: [u16; 8],
    ps: u16,
    mode: u8,
    blanks: u16,
    place: Option<u16>,
    address: Option<u16>,
) -> Result<usize, Refusal>
    ensures { left (printed_page result) text.new ≡ print_of (line_text regs ps mode blanks place address) text.old }
{
    if text.len() < 61 {
        return Err(Refusal::TextShort);
    }
    let registers = put_registers(text, regs);
    let status = field_at(text, registers, ps % 0x4000);
    let digit = mode_at(text, status, mode);
    let count = field_at(text, digit, blanks);
    Ok(first_at(text, count, place, address))
}

// REFUSED and a space.
fn put_name(out: &mut [u8]) -> usize
    requires { 8 ≤ length out.old }
    ensures { Wrote name out.old out.new result }
{
    put_text(out, b"REFUSED ")
}

// How many decimal digits a number has.
fn digits_of(n: u8) -> usize
    ensures { result ≡ length (decimal n) }
{
    if n < 10 {
        return 1;
    }
    if n < 100 {
        return 2;
    }
    3
}

// A number in decimal.
fn put_decimal(out: &mut [u8], n: u8) -> usize
    requires { length (decimal n) ≤ length out.old }
    ensures { Wrote (decimal n) out.old out.new result }
{
    if n < 10 {
        return put_text(out, &[48 + n]);
    }
    if n < 100 {
        return put_text(out, &[48 + n / 10, 48 + n % 10]);
    }
    put_text(out, &[48 + n / 100, 48 + n / 10 % 10, 48 + n % 10])
}

// A number in decimal in its place.
fn decimal_at(text: &mut [u8], at: usize, n: u8) -> usize
    requires { at + length (decimal n) ≤ length text.old }
    ensures { WroteAt at (decimal n) text.old text.new result }
{
    at + put_decimal(&mut text[at..], n)
}

// Writes a refusal's line: REFUSED, a space and the number in decimal.
pub fn write_refused(text: &mut [u8], number: u8) -> Result<usize, Refusal>
    ensures { left (printed_page result) text.new ≡ print_of (refused_text number) text.old }
{
    if text.len() < 8 + digits_of(number) {
        return Err(Refusal::TextShort);
    }
    let name = put_name(text);
    Ok(decimal_at(text, name, number))
}
