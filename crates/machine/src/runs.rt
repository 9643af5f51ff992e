// A run: one step for each line word.
ghost use Rattle.std.specs.Prelude.{◌≡◌, ◌≤◌, ◌+◌, length};
ghost use Rattle.board.specs.Exec.{beside, Lent, Board};
ghost use Rattle.machine.specs.Run as Spec;
ghost use Rattle.refusal.specs.Refusal.{most_line_words};

use super::{FirstBlank, Last, Ran, Tally};
use state::{Settings, State, hear};
use step::{Cause, Kind, blank_at, calm, error, goes_on, kind_of, op_code, other};

// The earlier one stays.
fn first_kept(first: Option<FirstBlank>, place: u16, address: u16) -> Option<FirstBlank>
    ensures { result ≡ Spec.first_kept first place address }
{
    match first {
        Some(_) => first,
        None => Some(FirstBlank { place, address }),
    }
}

// The tally after the step at this place, which may have been a blank.
pub(crate) fn blank_noted(t: Tally, place: u16, blank: Option<u16>) -> Tally
    requires { t.blanks ≤ most_line_words }
    ensures { (result ≡ Spec.blank_noted t place blank) × (result.blanks ≤ t.blanks + 1) }
{
    match blank {
        Some(address) => {
            let first = t.first;
            Tally {
                blanks: t.blanks + 1,
                first: first_kept(first, place, address),
            }
        }
        None => t,
    }
}

// A run, with a log that may hold an earlier step's entries. A line word is heard anew where it is another than
// the one before; the state stays in variables of its own, and each way that a step goes sets them (docs/SPEED.md tells why).
pub(crate) fn run_from(
    s: State,
    image: &mut [u8],
    map: &[u8],
    log: &mut [u16; 32],
    settings: Settings,
    lines: &[u16],
) -> Last
    requires { (Board map.now (beside image.old log.old)) × (length lines.now ≤ most_line_words) }
    ensures { Spec.LoggedRun settings map.now lines.now s image.old result (beside image.new log.new) }
{
    let mut state = s;
    let mut tally = Tally {
        blanks: 0,
        first: None,
    };
    let mut cause = Cause::Nothing;
    let mut line: u16 = 0;
    let mut out = hear(settings, 0);
    let mut quiet = calm(out);
    for (i, &next) in lines.iter().enumerate() {
        if next != line {
            line = next;
            out = hear(settings, next);
            quiet = calm(out);
        }
        if goes_on(state, out, quiet) {
            // For a blank: where the state itself is lent, it goes through memory in every step.
            let before = state;
            match op_code(state, image, map, log, out) {
                Ok(t) => {
                    state = t;
                    cause = Cause::OpCode;
                }
                Err(blank) => {
                    let o = out;
                    let m = map;
                    let turn = error(before, image, m, log, o, Kind::OpCode, blank.at);
                    state = turn.state;
                    cause = turn.cause;
                }
            }
        } else {
            let t = state;
            let o = out;
            let m = map;
            let turn = other(t, image, m, log, o, kind_of(t, o));
            state = turn.state;
            cause = turn.cause;
        }
        tally = blank_noted(tally, i as u16, blank_at(cause));
    }
    Last {
        ran: Ran { state, tally },
        cause,
    }
}

// The log is made once and cleared for each step.
pub(crate) fn run_on(
    s: State,
    image: &mut [u8],
    map: &[u8],
    settings: Settings,
    lines: &[u16],
) -> Last
    requires { (Lent map.now image.old) × (length lines.now ≤ most_line_words) }
    ensures { Spec.Ended settings map.now lines.now s image.old result image.new }
{
    let mut log = [0u16; 32];
    run_from(s, image, map, &mut log, settings, lines)
}
