// A run over one line word, as many steps as are asked for.
ghost use Rattle.std.specs.Prelude.{◌≡◌, ◌+◌, ◌-◌, ◌≤◌, ◌<◌, length, replicate};
ghost use Rattle.board.specs.Exec.{Lent};
ghost use Rattle.machine.specs.Trail as Trail;
ghost use Rattle.machine.specs.Counted as Counted;
ghost use Rattle.machine.specs.Same as Spec;
ghost use Rattle.refusal.specs.Refusal.{most_line_words};

use super::runs::run_on;
use super::{FirstBlank, Ran, Tally};
use state::{Settings, State};

// A place moved on by n steps.
fn moved(n: u16, first: Option<FirstBlank>) -> Option<FirstBlank>
    requires { Spec.BlankAmong (65536 - n) first }
    ensures { result ≡ Trail.place_moved n first }
{
    match first {
        Some(blank) => Some(FirstBlank {
            place: n + blank.place,
            address: blank.address,
        }),
        None => None,
    }
}

// The first of two.
fn or_first(first: Option<FirstBlank>, other: Option<FirstBlank>) -> Option<FirstBlank>
    ensures { result ≡ Counted.or_first first other }
{
    match first {
        Some(_) => first,
        None => other,
    }
}

// The tally of steps that follow n steps.
fn joined(n: u16, t: Tally, u: Tally) -> Tally
    requires { (t.blanks + u.blanks ≤ 65535) × Spec.BlankAmong (65536 - n) u.first }
    ensures { result ≡ Counted.tally_joined n t u }
{
    let first = t.first;
    let second = u.first;
    Tally {
        blanks: t.blanks + u.blanks,
        first: or_first(first, moved(n, second)),
    }
}

// A part of a run, after so many steps.
fn part(ran: Ran, image: &mut [u8], map: &[u8], settings: Settings, lines: &[u16], done: u16) -> Ran
    requires { (Lent map.now image.old) × Spec.Tallied done ran.tally × (length lines.now ≤ most_line_words) × (done + length lines.now ≤ 65535) }
    ensures { Spec.Parted settings map.now lines.now done ran image.old result image.new }
{
    let state = ran.state;
    let tally = ran.tally;
    let last = run_on(state, image, map, settings, lines);
    let next = last.ran;
    let after = next.state;
    let counted = next.tally;
    Ran {
        state: after,
        tally: joined(done, tally, counted),
    }
}

fn least(a: u16, b: u16) -> u16
    ensures { (result ≤ a) × (result ≤ b) × (0 < a → 0 < b → 0 < result) }
{
    if a < b {
        return a;
    }
    b
}

// Parts, as many as it takes, over line words that are all the same.
fn parts(
    s: State,
    image: &mut [u8],
    map: &[u8],
    settings: Settings,
    line: u16,
    lines: &[u16],
    steps: u16,
) -> Ran
    requires { (Lent map.now image.old) × (lines.now ≡ replicate 128 line) }
    ensures { Spec.SameLine settings map.now line steps s image.old result image.new }
{
    let tally = Tally {
        blanks: 0,
        first: None,
    };
    let mut ran = Ran { state: s, tally };
    let mut done: u16 = 0;
    while done < steps {
        let n = least(steps - done, 128);
        let k = n as usize;
        ran = part(ran, image, map, settings, &lines[..k], done);
        done += n;
    }
    ran
}

// The line words are laid out once.
pub(crate) fn run_same_on(
    s: State,
    image: &mut [u8],
    map: &[u8],
    settings: Settings,
    line: u16,
    steps: u16,
) -> Ran
    requires { Lent map.now image.old }
    ensures { Spec.SameLine settings map.now line steps s image.old result image.new }
{
    let lines = [line; 128];
    parts(s, image, map, settings, line, &lines, steps)
}
