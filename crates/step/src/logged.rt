// One step that leaves its log as it stands: what the step wrote.
ghost use Rattle.std.specs.Prelude.{◌≡◌};
ghost use Rattle.board.specs.Exec.{beside, Board, undone, Works};
ghost use Rattle.step.specs.Step.{work_of, error_of, step_of};
ghost use Rattle.step.specs.Written as Spec;

use super::xct::op_work;
use super::{Cause, Kind, Turn, bus_error, cause_of, error_cause_of, is_code, kind_of, seldom};
use board::Blank;
use state::{Mode, Outside, State};

// The work of a step.
fn work(
    s: State,
    image: &mut [u8],
    map: &[u8],
    log: &mut [u16; 32],
    out: Outside,
    k: Kind,
) -> Result<State, Blank>
    requires { Board map.now (beside image.old log.old) }
    ensures { Works map.now (work_of k out s) image.old log.old result image.new log.new }
{
    if is_code(k) {
        return op_work(s, image, map, log, out);
    }
    seldom(s, image, map, log, out, k)
}

// All the work is dropped, which was not answered at `a`; then the bus error, from the state before.
pub(crate) fn dropped(
    s: State,
    image: &mut [u8],
    map: &[u8],
    log: &mut [u16; 32],
    out: Outside,
    k: Kind,
    a: u16,
) -> Turn
    requires { Board map.now (beside image.old log.old) }
    ensures { Spec.LoggedStep map.now (error_of map.now k out s (undone (beside image.old log.old)) a)
        (Spec.error_writes map.now k out s (undone (beside image.old log.old))) result (beside image.new log.new) }
{
    board::rollback(image, log);
    if let Ok(t) = bus_error(s, image, map, log, out, k) {
        return Turn {
            state: t,
            cause: error_cause_of(k, a),
        };
    }
    board::rollback(image, log);
    Turn {
        state: s.with_mode(Mode::Locked),
        cause: Cause::LockedAt(a),
    }
}

// One step, with a log that may hold an earlier step's entries. After it the log's entries are what the step wrote.
pub fn step(s: State, image: &mut [u8], map: &[u8], log: &mut [u16; 32], out: Outside) -> Turn
    requires { Board map.now (beside image.old log.old) }
    ensures { Spec.LoggedStep map.now (step_of map.now out s image.old)
        (Spec.step_writes map.now out s image.old) result (beside image.new log.new) }
{
    let k = kind_of(s, out);
    board::clear(log);
    match work(s, image, map, log, out, k) {
        Ok(t) => Turn {
            state: t,
            cause: cause_of(k),
        },
        Err(blank) => dropped(s, image, map, log, out, k, blank.at),
    }
}
