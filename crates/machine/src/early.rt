// A run that ends early: after a step whose cause is asked for, or after which the processor waits or is halted.
ghost use Rattle.std.specs.Prelude.{◌≡◌, ◌≤◌, ◌<◌, length};
ghost use Rattle.board.specs.Exec.{beside, Board, Lent};
ghost use Rattle.machine.specs.Until as Spec;
ghost use Rattle.refusal.specs.Refusal.{most_line_words};

use super::runs::blank_noted;
use super::{Stage, Stop, Tally, Until, door};
use state::{Mode, Settings, State};
use step::{Cause, Turn, blank_at};

// Is a cause asked for?
fn asks(until: Until, cause: Cause) -> bool
    ensures { result ≡ Spec.asks until cause }
{
    match cause {
        Cause::OpCode => false,
        Cause::Switch => until.switch,
        Cause::NonVectored => until.interrupt,
        Cause::Vectored => until.interrupt,
        Cause::Nothing => false,
        Cause::OpCodeBlank(_) => until.blank,
        Cause::InterruptBlank(_) => until.blank,
        Cause::SaveBlank(_) => until.blank,
        Cause::LockedAt(_) => until.lock,
        Cause::Locked => until.lock,
    }
}

// Does the processor wait, or is it halted?
fn rests(mode: Mode) -> bool
    ensures { result ≡ Spec.rests mode }
{
    !matches!(mode, Mode::Running | Mode::Locked)
}

// Does a run end here?
fn ends(until: Until, stage: Stage) -> bool
    ensures { result ≡ Spec.ends until stage.cause stage.state.mode }
{
    let cause = stage.cause;
    let state = stage.state;
    let mode = state.mode;
    asks(until, cause) | rests(mode)
}

// One step on.
fn stride(
    stage: Stage,
    image: &mut [u8],
    map: &[u8],
    log: &mut [u16; 32],
    settings: Settings,
    lines: &[u16],
) -> Stage
    requires { (Board map.now (beside image.old log.old)) × (length lines.now ≤ most_line_words) × (stage.at < length lines.now) × (stage.tally.blanks ≤ stage.at) }
    ensures { Spec.Strode settings map.now lines.now stage image.old result (beside image.new log.new) }
{
    let s = stage.state;
    let tally = stage.tally;
    let at = stage.at;
    let turn = door::step(s, image, map, log, settings, lines[at]);
    let state = turn.state;
    let cause = turn.cause;
    Stage {
        state,
        tally: blank_noted(tally, at as u16, blank_at(cause)),
        cause,
        at: at + 1,
    }
}

fn stop_at(stage: Stage) -> Stop
    requires { stage.at ≤ most_line_words }
    ensures { result ≡ Spec.stop_at stage }
{
    let state = stage.state;
    let cause = stage.cause;
    let tally = stage.tally;
    Stop {
        turn: Turn { state, cause },
        tally,
        steps: stage.at as u16,
    }
}

// The log is made once and cleared for each step. The place is the stage's, which tells where the run ended.
pub(crate) fn until_on(
    s: State,
    image: &mut [u8],
    map: &[u8],
    settings: Settings,
    lines: &[u16],
    until: Until,
) -> Stop
    requires { (Lent map.now image.old) × (length lines.now ≤ most_line_words) }
    ensures { Spec.Ended settings map.now lines.now until s image.old result image.new }
{
    let mut log = [0u16; 32];
    let tally = Tally {
        blanks: 0,
        first: None,
    };
    let mut stage = Stage {
        state: s,
        tally,
        cause: Cause::Nothing,
        at: 0,
    };
    while stage.at < lines.len() {
        stage = stride(stage, image, map, &mut log, settings, lines);
        if ends(until, stage) {
            return stop_at(stage);
        }
    }
    stop_at(stage)
}
