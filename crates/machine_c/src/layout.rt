// The lent bytes of a state, of a tally and of the settings.
ghost use Rattle.std.specs.Prelude.{◌≡◌, ◌≤◌};
ghost use Rattle.wordmath.specs.Number.{digit};
ghost use Rattle.machine.specs.Numbers as Page;
ghost use Rattle.machine.specs.Back as Back;
ghost use Rattle.machine_c.specs.Layout as Spec;

use machine::{FirstBlank, Tally};
use state::{Mode, Settings, State};
use wordbytes::{byte_at, high, low, word_at};
use wordmath::Flags;

// 1 for true, 0 for false.
fn digit(b: bool) -> u8
    ensures { (result ≡ digit b) × (result ≤ 1) }
{
    b as u8
}

// N 8, Z 4, V 2, C 1.
fn indicators(f: Flags) -> u8
    ensures { result ≡ Page.indicators f }
{
    digit(f.n) * 8 + digit(f.z) * 4 + digit(f.v) * 2 + digit(f.c)
}

// A mode by its number. A TryFrom would refuse once more what `over` has refused.
fn mode_of(n: u8) -> Mode
    ensures { result ≡ Back.mode_of n }
{
    match n {
        0 => Mode::Running,
        1 => Mode::Waiting,
        2 => Mode::PowerHalt,
        3 => Mode::SwitchHalt,
        4 => Mode::Locked,
        _ => Mode::Saved,
    }
}

// Whether bytes 16 to 21 hold more than they may.
fn over(b: &[u8]) -> bool
    ensures { result ≡ Spec.state_refused b.now }
{
    (15 < byte_at(b, 16))
        | (1 < byte_at(b, 17))
        | (5 < byte_at(b, 18))
        | (9 < byte_at(b, 19))
        | (1 < byte_at(b, 20))
        | (1 < byte_at(b, 21))
}

fn not_state(b: &[u8]) -> bool
    ensures { result ≡ Spec.not_state b.now }
{
    b.len() != 24
}

// Are these bytes not a state's? The length is looked at first, so that no byte is looked for past the end.
fn refused_state(b: &[u8]) -> bool
    ensures { result ≡ Spec.refused_state b.now }
{
    if not_state(b) {
        return true;
    }
    over(b)
}

// Are these bytes not the settings'?
fn refused_settings(w: &[u8]) -> bool
    ensures { result ≡ Spec.refused_settings w.now }
{
    if w.len() != 4 {
        return true;
    }
    1 < byte_at(w, 0)
}

// What power-up refuses as 21: it only writes the state.
pub fn refused_up(b: &[u8], w: &[u8]) -> bool
    ensures { result ≡ Spec.refused_up b.now w.now }
{
    not_state(b) | refused_settings(w)
}

// What a step refuses as 21.
pub fn refused_step(b: &[u8], w: &[u8]) -> bool
    ensures { result ≡ Spec.refused_step b.now w.now }
{
    if refused_state(b) {
        return true;
    }
    refused_settings(w)
}

// What a run refuses as 21.
pub fn refused_run(b: &[u8], t: &[u8], w: &[u8]) -> bool
    ensures { result ≡ Spec.refused_run b.now t.now w.now }
{
    refused_step(b, w) | (t.len() != 6)
}

// The settings that the bytes hold.
pub fn settings_from(w: &[u8]) -> Settings
    ensures { result ≡ Spec.settings_from w.now }
{
    Settings {
        blocks: byte_at(w, 0) == 1,
        powerup: byte_at(w, 1),
        halt: byte_at(w, 2),
        register: byte_at(w, 3),
    }
}

// R0 to R5, SP and PC.
fn regs_from(b: &[u8]) -> State
    ensures { result ≡ Back.from_registers (Spec.registers_in b.now) }
{
    state::cleared()
        .with_reg(0, word_at(b, 0))
        .with_reg(1, word_at(b, 2))
        .with_reg(2, word_at(b, 4))
        .with_reg(3, word_at(b, 6))
        .with_reg(4, word_at(b, 8))
        .with_reg(5, word_at(b, 10))
        .with_reg(6, word_at(b, 12))
        .with_reg(7, word_at(b, 14))
}

// The state that the bytes hold.
pub fn state_from(b: &[u8]) -> State
    ensures { result ≡ Spec.state_from b.now }
{
    regs_from(b)
        .with_flags(wordmath::status::flags_of(byte_at(b, 16) as u16))
        .with_i2(byte_at(b, 17) == 1)
        .with_mode(mode_of(byte_at(b, 18)))
        .with_mark(byte_at(b, 20) == 1)
}

// 1 where an address is told.
fn tells(told: Option<u16>) -> u8
    ensures { result ≡ Spec.address_told (Page.told_of told) }
{
    match told {
        None => 0,
        Some(_) => 1,
    }
}

// The address that is told, 0 where there is none.
fn word_told(told: Option<u16>) -> u16
    ensures { result ≡ Spec.word_told (Page.told_of told) }
{
    match told {
        None => 0,
        Some(address) => address,
    }
}

// The bytes of a state, of the cause that led to it and of the address that it tells.
fn state_bytes(s: State, cause: u8, told: Option<u16>) -> [u8; 24]
    ensures { result ≡ Spec.state_bytes (Page.state_page s) cause (Page.told_of told) }
{
    let mode = s.mode;
    let address = word_told(told);
    [
        low(s.regs.r0),
        high(s.regs.r0),
        low(s.regs.r1),
        high(s.regs.r1),
        low(s.regs.r2),
        high(s.regs.r2),
        low(s.regs.r3),
        high(s.regs.r3),
        low(s.regs.r4),
        high(s.regs.r4),
        low(s.regs.r5),
        high(s.regs.r5),
        low(s.regs.sp),
        high(s.regs.sp),
        low(s.regs.pc),
        high(s.regs.pc),
        indicators(s.flags),
        digit(s.i2),
        state::mode_number(mode),
        cause,
        digit(s.mark),
        tells(told),
        low(address),
        high(address),
    ]
}

// The same over a lent buffer of 24 bytes; another is left as lent.
pub fn put_state(b: &mut [u8], s: State, cause: u8, told: Option<u16>)
    ensures { b.new ≡ Spec.laid (Spec.state_bytes (Page.state_page s) cause (Page.told_of told)) b.old }
{
    if b.len() != 24 {
        return;
    }
    let from = state_bytes(s, cause, told);
    b.copy_from_slice(&from);
}

// The place of the first blank, FFFF where there is none.
pub(crate) fn place_of(first: Option<FirstBlank>) -> u16
    ensures { result ≡ Spec.place_number (Page.first_page first) }
{
    match first {
        Some(blank) => blank.place,
        None => 0xffff,
    }
}

// The address that the first blank told, 0 where there is none.
pub(crate) fn place_told(first: Option<FirstBlank>) -> u16
    ensures { result ≡ Spec.place_told (Page.first_page first) }
{
    match first {
        Some(blank) => blank.address,
        None => 0,
    }
}

// The blanks, the place of the first and the address that it told.
fn tally_bytes(t: Tally) -> [u8; 6]
    ensures { result ≡ Spec.tally_bytes t.blanks (Page.first_page t.first) }
{
    let first = t.first;
    let place = place_of(first);
    let address = place_told(first);
    [
        low(t.blanks),
        high(t.blanks),
        low(place),
        high(place),
        low(address),
        high(address),
    ]
}

// The same over a lent buffer of 6 bytes; another is left as lent.
pub fn put_tally(b: &mut [u8], t: Tally)
    ensures { b.new ≡ Spec.laid (Spec.tally_bytes t.blanks (Page.first_page t.first)) b.old }
{
    if b.len() != 6 {
        return;
    }
    let from = tally_bytes(t);
    b.copy_from_slice(&from);
}
