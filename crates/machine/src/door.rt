// The inner door, for crates of ours: a run and a step over a board that is known to be good. Nothing is looked at again, and a step
// is lent its log.
ghost use Rattle.board.specs.Exec.{beside, Board};
ghost use Rattle.machine.specs.Door as Spec;

use super::Ran;
use super::runs::{run_from, run_on};
use state::{Settings, State};
use step::Turn;

// A run over line words.
pub fn run(s: State, image: &mut [u8], map: &[u8], settings: Settings, lines: &[u16]) -> Ran
    requires { Spec.GoodBoard map.now image.old lines.now }
    ensures { Spec.Runs settings map.now lines.now s image.old result image.new }
{
    let last = run_on(s, image, map, settings, lines);
    last.ran
}

// One step over a line word.
pub fn step(
    s: State,
    image: &mut [u8],
    map: &[u8],
    log: &mut [u16; 32],
    settings: Settings,
    line: u16,
) -> Turn
    requires { Board map.now (beside image.old log.old) }
    ensures { Spec.Steps settings map.now line s image.old result image.new log.new }
{
    let lines = [line];
    let last = run_from(s, image, map, log, settings, &lines);
    let ran = last.ran;
    let state = ran.state;
    let cause = last.cause;
    Turn { state, cause }
}
