// One step, and power-up.
#![tactic(auto)]

ghost use Rattle.std.specs.Prelude.{cond, false, ◌≡◌};
ghost use Rattle.board.specs.Exec.{beside, Lent, Board, Saw, undone, Works};
ghost use Rattle.step.specs.Step as Spec;
ghost use Rattle.step.specs.Inner as Inner;

use board::Blank;
use places::{restore_places, save_places};
use state::{Mode, Outside, Settings, State};
use wordmath::address::plus;
use xct::op_work;

mod execute;
pub mod logged;
mod places;
mod xct;

// What is to be done after an op code's fetch: an op code to execute, traced or not; an XCT that is aborted.
#[derive(Clone, Copy)]
pub enum Begun {
    Code(State, u16, bool),
    Abort(State),
}

// What a line word makes of a step: an op code; the end of a halt on power fail; bootstrap, save, lock-up, a fetch from 16, the end of a save; I1, I0; nothing is done; locked.
#[derive(Clone, Copy, Debug, PartialEq, Eq)]
pub enum Kind {
    OpCode,
    HaltEnd,
    Boots,
    Saves,
    LocksUp,
    Restarts,
    Restores,
    NonVectored,
    Vectored,
    Waits,
    Stuck,
}

// What a step was. The blanks and a lock-up that is newly met tell the address that the dropped work was not answered at.
#[derive(Clone, Copy)]
pub enum Cause {
    OpCode,
    Switch,
    NonVectored,
    Vectored,
    Nothing,
    OpCodeBlank(u16),
    InterruptBlank(u16),
    SaveBlank(u16),
    LockedAt(u16),
    Locked,
}

// The state after a step, and its cause.
#[derive(Clone, Copy)]
pub struct Turn {
    pub state: State,
    pub cause: Cause,
}

// 01's number of a cause. A cause that tells an address has no cast.
pub fn cause_number(cause: Cause) -> u8
    ensures { result ≡ Spec.cause_number cause }
{
    match cause {
        Cause::OpCode => 0,
        Cause::Switch => 1,
        Cause::NonVectored => 2,
        Cause::Vectored => 3,
        Cause::Nothing => 4,
        Cause::OpCodeBlank(_) => 5,
        Cause::InterruptBlank(_) => 6,
        Cause::SaveBlank(_) => 9,
        Cause::LockedAt(_) => 8,
        Cause::Locked => 8,
    }
}

// The address of a blank: the bus error's trap succeeded.
pub fn blank_at(cause: Cause) -> Option<u16>
    ensures { result ≡ Spec.blank_at cause }
{
    match cause {
        Cause::OpCode => None,
        Cause::Switch => None,
        Cause::NonVectored => None,
        Cause::Vectored => None,
        Cause::Nothing => None,
        Cause::OpCodeBlank(at) => Some(at),
        Cause::InterruptBlank(at) => Some(at),
        Cause::SaveBlank(at) => Some(at),
        Cause::LockedAt(_) => None,
        Cause::Locked => None,
    }
}

// The address that a step tells: that of a blank, and that of a lock-up which is newly met.
pub fn address_of(cause: Cause) -> Option<u16>
    ensures { result ≡ Spec.cause_address cause }
{
    match cause {
        Cause::OpCode => None,
        Cause::Switch => None,
        Cause::NonVectored => None,
        Cause::Vectored => None,
        Cause::Nothing => None,
        Cause::OpCodeBlank(a) => Some(a),
        Cause::InterruptBlank(a) => Some(a),
        Cause::SaveBlank(a) => Some(a),
        Cause::LockedAt(a) => Some(a),
        Cause::Locked => None,
    }
}

// What I3 selects, by the jumpers.
fn halt_option(settings: Settings) -> Kind
    ensures { result ≡ Spec.halt_option settings }
{
    let jumpers = settings.halt;
    match jumpers {
        0 => Kind::Boots,
        1 => Kind::Saves,
        2 => Kind::LocksUp,
        _ => Kind::Restarts,
    }
}

// What a power-up selects, by the jumpers.
fn power_up_option(settings: Settings) -> Kind
    ensures { result ≡ Spec.power_up_option settings }
{
    let jumpers = settings.powerup;
    match jumpers {
        0 => Kind::Boots,
        1 => Kind::Restores,
        2 => halt_option(settings),
        _ => Kind::Restarts,
    }
}

// 2. I1. 3. I0. 4. what a waiting or a running processor does.
fn raised(out: Outside, other: Kind) -> Kind
    ensures { result ≡ Spec.raised out other }
{
    if out.i1 {
        return Kind::NonVectored;
    }
    if out.i0 {
        return Kind::Vectored;
    }
    other
}

// 1. I3 selects the halt option; then 2 and 3, where I0 and I1 are heard.
fn asked(hearing: bool, out: Outside, other: Kind) -> Kind
    ensures { result ≡ Spec.asked hearing out other }
{
    if out.i3 {
        return halt_option(out.settings);
    }
    if hearing {
        return raised(out, other);
    }
    other
}

fn power_halted(out: Outside) -> Kind
    ensures { result ≡ cond out.fail Kind.Waits Kind.HaltEnd }
{
    if out.fail { Kind::Waits } else { Kind::HaltEnd }
}

fn switch_halted(out: Outside) -> Kind
    ensures { result ≡ cond out.i3 (Spec.halt_option out.settings) Kind.Waits }
{
    if out.i3 {
        return halt_option(out.settings);
    }
    Kind::Waits
}

fn saved(out: Outside) -> Kind
    ensures { result ≡ cond out.i3 Kind.Waits Kind.Restores }
{
    if out.i3 { Kind::Waits } else { Kind::Restores }
}

// Halted on power fail ends where power fail is clear, whatever the jumpers; halted for the switch comes to the halt option where I3 is set.
// Locked: nothing changes. Saved ends where I3 is clear.
fn kind_in(mode: Mode, hearing: bool, out: Outside) -> Kind
    ensures { result ≡ Spec.kind_in mode hearing out }
{
    match mode {
        Mode::Running => asked(hearing, out, Kind::OpCode),
        Mode::Waiting => asked(hearing, out, Kind::Waits),
        Mode::PowerHalt => power_halted(out),
        Mode::SwitchHalt => switch_halted(out),
        Mode::Locked => Kind::Stuck,
        Mode::Saved => saved(out),
    }
}

// I0 and I1 are heard where I2 is set and no mark holds them off.
pub fn kind_of(s: State, out: Outside) -> Kind
    ensures { result ≡ Spec.kind_of s out }
{
    let mode = s.mode;
    kind_in(mode, s.i2 & !s.mark, out)
}

// Where I1 finds its PC: 14 if power fail is set, else 2A.
fn vector(out: Outside) -> u16
    ensures { result ≡ cond out.fail 0x14 0x2a }
{
    if out.fail { 0x14 } else { 0x2a }
}

// I0: ↓ PS, ↓ PC, I2 reset, running; T = word at 28 plus twice the device code; PC = T + word at T.
fn vectored(
    s: State,
    image: &mut [u8],
    map: &[u8],
    log: &mut [u16; 32],
    out: Outside,
) -> Result<State, Blank>
    requires { Board map.now (beside image.old log.old) }
    ensures { Works map.now (Spec.vectored out s) image.old log.old result image.new log.new }
{
    let t = s.trap_now(image, map, log, out, 0x28)?;
    t.tabled(image, map, plus(t.regs.pc, plus(out.device, out.device)))
}

// The end of a halt, and an option: PC from 16, running.
fn restart(s: State, image: &[u8], map: &[u8]) -> Result<State, Blank>
    requires { Lent map.now image.now }
    ensures { Saw map.now (Spec.restart s) image.now result }
{
    s.with_mode(Mode::Running).from_loc(image, map, 0x16)
}

// C000 in PC, its bits 8 to 13 from the External Address Register; running.
fn bootstrap(settings: Settings, s: State) -> State
    ensures { result ≡ Spec.bootstrap settings s }
{
    s.with_mode(Mode::Running)
        .with_pc(0xc000 + settings.register as u16 % 64 * 256)
}

// The work of a step that is no op code. An arm for each kind, as 01 lists them.
fn seldom(
    s: State,
    image: &mut [u8],
    map: &[u8],
    log: &mut [u16; 32],
    out: Outside,
    k: Kind,
) -> Result<State, Blank>
    requires { (Board map.now (beside image.old log.old)) × (Spec.is_code k ≡ false) }
    ensures { Works map.now (Spec.work_of k out s) image.old log.old result image.new log.new }
{
    match k {
        Kind::OpCode => Ok(s),
        Kind::HaltEnd => restart(s, image, map),
        Kind::Boots => Ok(bootstrap(out.settings, s)),
        // Options and interrupts are seldom: their work stays out of line.
        Kind::Saves => {
            let t = s;
            let o = out;
            let m = map;
            state::apart(save_places(t, image, m, log, o))
        }
        Kind::LocksUp => Ok(s.with_mode(Mode::Locked)),
        Kind::Restarts => restart(s, image, map),
        Kind::Restores => {
            let t = s;
            let m = map;
            state::apart(restore_places(t, image, m))
        }
        Kind::NonVectored => {
            let t = s;
            let o = out;
            let m = map;
            state::apart(t.trap_now(image, m, log, o, vector(out)))
        }
        Kind::Vectored => {
            let t = s;
            let o = out;
            let m = map;
            state::apart(vectored(t, image, m, log, o))
        }
        Kind::Waits => Ok(s),
        Kind::Stuck => Ok(s),
    }
}

// Is the step an op code?
pub fn is_code(k: Kind) -> bool
    ensures { result ≡ Spec.is_code k }
{
    matches!(k, Kind::OpCode)
}

// Nothing is asked for: no I3, no I1, no I0.
pub fn calm(out: Outside) -> bool
    ensures { result ≡ Inner.calm out }
{
    !(out.i3 | out.i1 | out.i0)
}

fn running(mode: Mode) -> bool
    ensures { result ≡ Inner.running mode }
{
    matches!(mode, Mode::Running)
}

// Is the next step an op code? Where nothing is asked for and the processor runs it is.
pub fn goes_on(s: State, out: Outside, quiet: bool) -> bool
    requires { quiet ≡ Inner.calm out }
    ensures { result ≡ Spec.is_code (Spec.kind_of s out) }
{
    let mode = s.mode;
    if quiet & running(mode) {
        return true;
    }
    is_code(kind_of(s, out))
}

fn cause_of(k: Kind) -> Cause
    ensures { result ≡ Spec.cause_of k }
{
    match k {
        Kind::OpCode => Cause::OpCode,
        Kind::HaltEnd => Cause::OpCode,
        Kind::Boots => Cause::Switch,
        Kind::Saves => Cause::Switch,
        Kind::LocksUp => Cause::Locked,
        Kind::Restarts => Cause::Switch,
        Kind::Restores => Cause::Switch,
        Kind::NonVectored => Cause::NonVectored,
        Kind::Vectored => Cause::Vectored,
        Kind::Waits => Cause::Nothing,
        Kind::Stuck => Cause::Locked,
    }
}

// The cause of a bus error at an address, where its trap succeeds: never where 16 can't be fetched or the places can't be picked up. Work that reads and writes nothing meets none.
fn error_cause_of(k: Kind, a: u16) -> Cause
    ensures { result ≡ Spec.error_cause_of k a }
{
    match k {
        Kind::OpCode => Cause::OpCodeBlank(a),
        Kind::HaltEnd => Cause::LockedAt(a),
        Kind::Boots => Cause::LockedAt(a),
        Kind::Saves => Cause::SaveBlank(a),
        Kind::LocksUp => Cause::LockedAt(a),
        Kind::Restarts => Cause::LockedAt(a),
        Kind::Restores => Cause::LockedAt(a),
        Kind::NonVectored => Cause::InterruptBlank(a),
        Kind::Vectored => Cause::InterruptBlank(a),
        Kind::Waits => Cause::LockedAt(a),
        Kind::Stuck => Cause::LockedAt(a),
    }
}

// Past the op code, if the step had come to one.
fn past(k: Kind, s: State) -> State
    ensures { result ≡ Spec.past k s }
{
    if is_code(k) {
        return s.with_pc(plus(s.regs.pc, 2));
    }
    s
}

// ↓ PS, with the bus error's bit; ↓ PC; I2 reset, running, PC from 12.
fn bus_error(
    s: State,
    image: &mut [u8],
    map: &[u8],
    log: &mut [u16; 32],
    out: Outside,
    k: Kind,
) -> Result<State, Blank>
    requires { Board map.now (beside image.old log.old) }
    ensures { Works map.now (Spec.bus_error k out s) image.old log.old result image.new log.new }
{
    let t = past(k, s);
    t.trap(image, map, log, t.ps(out, true), 0x12)
}

// All the work is dropped, which was not answered at `a`; then the bus error, from the state before.
pub fn error(
    s: State,
    image: &mut [u8],
    map: &[u8],
    log: &mut [u16; 32],
    out: Outside,
    k: Kind,
    a: u16,
) -> Turn
    requires { Board map.now (beside image.old log.old) }
    ensures { Inner.DidStep map.now (Spec.error_of map.now k out s (undone (beside image.old log.old)) a) result (beside image.new log.new) }
{
    logged::dropped(s, image, map, log, out, k, a)
}

// The work of a step that is an op code, with a log that may hold an earlier step's entries.
pub fn op_code(
    s: State,
    image: &mut [u8],
    map: &[u8],
    log: &mut [u16; 32],
    out: Outside,
) -> Result<State, Blank>
    requires { Board map.now (beside image.old log.old) }
    ensures { Inner.Coded map.now out s image.old result (beside image.new log.new) }
{
    board::clear(log);
    op_work(s, image, map, log, out)
}

// A step that is no op code, with a log that may hold an earlier step's entries.
pub fn other(
    s: State,
    image: &mut [u8],
    map: &[u8],
    log: &mut [u16; 32],
    out: Outside,
    k: Kind,
) -> Turn
    requires { (Board map.now (beside image.old log.old)) × (k ≡ Spec.kind_of s out) × (Spec.is_code k ≡ false) }
    ensures { Inner.DidStep map.now (Spec.step_of map.now out s image.old) result (beside image.new log.new) }
{
    board::clear(log);
    match seldom(s, image, map, log, out, k) {
        Ok(t) => Turn {
            state: t,
            cause: cause_of(k),
        },
        Err(blank) => error(s, image, map, log, out, k, blank.at),
    }
}

// The option's work on a cleared state and a quiet line; where it is not answered all of it is dropped, and the processor is locked.
pub fn power(image: &mut [u8], map: &[u8], settings: Settings) -> State
    requires { Lent map.now image.old }
    ensures { Inner.DidPowerUp map.now (Spec.power_up_of settings map.now image.old) result image.new }
{
    let mut log = [0u16; 32];
    let s = state::cleared();
    let out = state::hear(settings, 0);
    let k = power_up_option(settings);
    if let Ok(t) = seldom(s, image, map, &mut log, out, k) {
        return t;
    }
    board::rollback(image, &mut log);
    s.with_mode(Mode::Locked)
}
