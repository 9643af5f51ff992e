// A step and its line: what stood at PC, what the step changed, why, and the words that it wrote.
#![tactic(auto)]

ghost use Rattle.std.specs.Prelude.{◌≡◌, ◌+◌, ◌*◌, ◌≤◌, length};
ghost use Rattle.hexdigits.specs.Over.{Wrote, WroteAt};
ghost use Rattle.board.specs.Exec.{Board, Lent, beside, log_count};
ghost use Rattle.state.specs.State.{heard};
ghost use Rattle.step.specs.Step.{cause_number, step_of};
ghost use Rattle.step.specs.Written.{addresses};
ghost use Rattle.refusal.specs.Page.{left, answered};
ghost use Rattle.refusal.specs.Answer.{why_of};
ghost use Rattle.refusal.specs.Refusal.{board_refusal};
ghost use Rattle.stepline.specs.Shown as Spec;

use hexdigits::hex;
use listing::list_line;
use refusal::Refusal;
use state::{Settings, State};
use step::{Cause, Turn, is_code, kind_of, logged};
use wordbytes::{byte_at, word_at};

// A step's line: its length, and the state and the cause after the step.
#[derive(Clone, Copy)]
pub struct Shown {
    pub length: usize,
    pub turn: Turn,
}

// A column that says nothing.
const NONE: u32 = 0x1_0000;

// ---- columns

// A digit, or a dash.
fn mark(there: bool, d: u16) -> u8
    ensures { result ≡ Spec.mark there d }
{
    if there {
        return hex(d);
    }
    b'-'
}

// Four digits and a space, or four dashes and a space.
fn put_column(out: &mut [u8], x: u32) -> usize
    requires { 5 ≤ length out.old }
    ensures { Wrote (Spec.column x) out.old out.new result }
{
    let v = (x % 0x1_0000) as u16;
    let there = x < 0x1_0000;
    out[0] = mark(there, v / 4096);
    out[1] = mark(there, v / 256 % 16);
    out[2] = mark(there, v / 16 % 16);
    out[3] = mark(there, v % 16);
    out[4] = b' ';
    5
}

fn column_at(text: &mut [u8], at: usize, x: u32) -> usize
    requires { at + 5 ≤ length text.old }
    ensures { WroteAt at (Spec.column x) text.old text.new result }
{
    at + put_column(&mut text[at..], x)
}

fn put_columns(text: &mut [u8], values: [u32; 15]) -> usize
    requires { 75 ≤ length text.old }
    ensures { Wrote (Spec.columns values 15) text.old text.new result }
{
    let mut at: usize = 0;
    for x in values {
        at = column_at(text, at, x);
    }
    at
}

fn columns_at(text: &mut [u8], at: usize, values: [u32; 15]) -> usize
    requires { at + 75 ≤ length text.old }
    ensures { WroteAt at (Spec.columns values 15) text.old text.new result }
{
    at + put_columns(&mut text[at..], values)
}

// ---- what changed, and why

// The value after, where it is another.
fn changed(before: u16, after: u16) -> u32
    ensures { result ≡ Spec.changed before after }
{
    if before == after {
        return NONE;
    }
    after as u32
}

fn told(address: Option<u16>) -> u32
    ensures { result ≡ Spec.cause_word address }
{
    match address {
        None => NONE,
        Some(a) => a as u32,
    }
}

// The map's byte for the page of that address.
fn page_told(map: &[u8], address: Option<u16>) -> u32
    ensures { result ≡ Spec.page_told map.now address }
{
    match address {
        None => NONE,
        Some(a) => byte_at(map, (a / 256) as usize) as u32,
    }
}

// PS as it is formed on a quiet line.
fn status(settings: Settings, s: State) -> u16
    ensures { result ≡ Spec.status settings s }
{
    s.ps(state::hear(settings, 0), false)
}

// The mode's number.
fn mode(s: State) -> u16
    ensures { result ≡ Spec.mode s }
{
    let mode = s.mode;
    state::mode_number(mode) as u16
}

fn number_of(cause: Cause) -> u32
    ensures { result ≡ cause_number cause }
{
    step::cause_number(cause) as u32
}

fn figures(
    settings: Settings,
    map: &[u8],
    number: u16,
    line: u16,
    s: State,
    t: State,
    cause: Cause,
) -> [u32; 15]
    ensures { result ≡ Spec.figures settings map.now number line s t cause }
{
    [
        number as u32,
        line as u32,
        changed(s.regs.r0, t.regs.r0),
        changed(s.regs.r1, t.regs.r1),
        changed(s.regs.r2, t.regs.r2),
        changed(s.regs.r3, t.regs.r3),
        changed(s.regs.r4, t.regs.r4),
        changed(s.regs.r5, t.regs.r5),
        changed(s.regs.sp, t.regs.sp),
        changed(s.regs.pc, t.regs.pc),
        changed(status(settings, s), status(settings, t)),
        changed(mode(s), mode(t)),
        number_of(cause),
        told(step::address_of(cause)),
        page_told(map, step::address_of(cause)),
    ]
}

// ---- the words that were written

// The even address of an access, and the word there.
fn put_word(out: &mut [u8], image: &[u8], a: u16) -> usize
    requires { 10 ≤ length out.old }
    ensures { Wrote (Spec.written_word image.now a) out.old out.new result }
{
    let at = a / 2 * 2;
    let n = put_column(out, at as u32);
    column_at(out, n, word_at(image, at as usize) as u32)
}

fn word_text_at(text: &mut [u8], at: usize, image: &[u8], a: u16) -> usize
    requires { at + 10 ≤ length text.old }
    ensures { WroteAt at (Spec.written_word image.now a) text.old text.new result }
{
    at + put_word(&mut text[at..], image, a)
}

// The words at the log's addresses, one after the other.
fn put_writes(text: &mut [u8], image: &[u8], log: &[u16; 32]) -> usize
    requires { (150 ≤ length text.old) × (length log.now ≡ 32) × (log_count log.now ≤ 15) }
    ensures { Wrote (Spec.writes_text image.now (addresses log.now)) text.old text.new result }
{
    let entries = log[0] as usize;
    let mut at: usize = 0;
    for i in 0..entries {
        at = word_text_at(text, at, image, log[i * 2 + 1]);
    }
    at
}

fn writes_at(text: &mut [u8], at: usize, image: &[u8], log: &[u16; 32]) -> usize
    requires { (at + 150 ≤ length text.old) × (length log.now ≡ 32) × (log_count log.now ≤ 15) }
    ensures { WroteAt at (Spec.writes_text image.now (addresses log.now)) text.old text.new result }
{
    at + put_writes(&mut text[at..], image, log)
}

// ---- the line

// What stands at PC, where the step is an op code.
fn put_code(text: &mut [u8], s: State, image: &[u8], map: &[u8], code: bool) -> usize
    requires { (52 ≤ length text.old) × (board_refusal (length image.now) map.now ≡ 0) }
    ensures { Wrote (Spec.code_text map.now code s image.now) text.old text.new result × (result ≤ 52) }
{
    if !code {
        return 0;
    }
    match list_line(image, map, s.regs.pc / 2 * 2, 0xfffe, text) {
        Ok(listed) => listed.length,
        Err(_) => 0,
    }
}

fn put_tab(out: &mut [u8]) -> usize
    requires { 1 ≤ length out.old }
    ensures { Wrote Spec.tab out.old out.new result }
{
    out[0] = b'\t';
    1
}

fn tab_at(text: &mut [u8], at: usize) -> usize
    requires { at + 1 ≤ length text.old }
    ensures { WroteAt at Spec.tab text.old text.new result }
{
    at + put_tab(&mut text[at..])
}

// The step is made, and its line written.
fn write_on(
    text: &mut [u8],
    s: State,
    image: &mut [u8],
    map: &[u8],
    settings: Settings,
    line: u16,
    number: u16,
) -> Shown
    requires { (278 ≤ length text.old) × (Lent map.now image.old) × (board_refusal (length image.old) map.now ≡ 0) }
    ensures { left (answered (Spec.shown_line result)) (image.new, text.new)
        ≡ Spec.shown_as (step_of map.now (heard settings line) s image.old) (Spec.step_text settings map.now line number s image.old) text.old }
{
    let out = state::hear(settings, line);
    let code = put_code(text, s, image, map, is_code(kind_of(s, out)));
    let begun = tab_at(text, code);
    let mut log = [0u16; 32];
    let turn = logged::step(s, image, map, &mut log, out);
    let t = turn.state;
    let cause = turn.cause;
    let after = columns_at(
        text,
        begun,
        figures(settings, map, number, line, s, t, cause),
    );
    let n = writes_at(text, after, image, &log);
    Shown { length: n, turn }
}

// 1, 2, 3, 35, 5 or 8.
fn show_refusal(
    size: usize,
    map: &[u8],
    settings: Settings,
    line: u16,
    text: usize,
) -> Result<(), Refusal>
    ensures { why_of result ≡ Spec.show_why settings size map.now line text }
{
    refusal::step_refusal(
        size,
        map,
        settings.powerup,
        settings.halt,
        settings.register,
        line,
    )?;
    if text < 278 {
        return Err(Refusal::TextShort);
    }
    Ok(())
}

// Makes one step over a line word, and writes its line, under the number that it is given, in front of the text, with no line end; or 1,
// 2, 3, 35, 5 or 8, with the image and the text as lent.
pub fn write_step(
    text: &mut [u8],
    s: State,
    image: &mut [u8],
    map: &[u8],
    settings: Settings,
    line: u16,
    number: u16,
) -> Result<Shown, Refusal>
    ensures { left (Spec.shown_page result) (image.new, text.new) ≡ Spec.show_of settings image.old map.now line number s text.old }
{
    show_refusal(image.len(), map, settings, line, text.len())?;
    Ok(write_on(text, s, image, map, settings, line, number))
}
