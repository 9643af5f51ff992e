// The processor: power-up, one step, and a run over a list of line words.
#![tactic(auto)]

ghost use Rattle.std.specs.Prelude.{◌≡◌, ◌≤◌, length};
ghost use Rattle.refusal.specs.Page.{left};
ghost use Rattle.machine.specs.Entry as Spec;
ghost use Rattle.machine.specs.Same.{run_same_page};
ghost use Rattle.machine.specs.Until.{stopped_page, run_until_page};

use refusal::Refusal;
use state::{Settings, State};
use step::{Cause, Turn};

pub mod door;
mod early;
mod runs;
mod same;

// The first blank step of a run: its place, and the address that it tells.
#[derive(Clone, Copy)]
pub struct FirstBlank {
    pub place: u16,
    pub address: u16,
}

// The blank steps of a run: how many, and the first.
#[derive(Clone, Copy)]
pub struct Tally {
    pub blanks: u16,
    pub first: Option<FirstBlank>,
}

// The state after a run, and its blank steps.
#[derive(Clone, Copy)]
pub struct Ran {
    pub state: State,
    pub tally: Tally,
}

// A run, and the cause of its last step.
#[derive(Clone, Copy)]
pub(crate) struct Last {
    pub ran: Ran,
    pub cause: Cause,
}

// Where a run stands: before the step at a place, with the tally so far and the cause of the step before.
#[derive(Clone, Copy)]
pub(crate) struct Stage {
    pub state: State,
    pub tally: Tally,
    pub cause: Cause,
    pub at: usize,
}

// What a run may be asked to end after: an interrupt taken, a blank, a lock-up, the halt switch taken.
#[derive(Clone, Copy)]
pub struct Until {
    pub interrupt: bool,
    pub blank: bool,
    pub lock: bool,
    pub switch: bool,
}

// A run that may have ended early: the state and the cause after its last step, its blank steps, and how many steps it made.
#[derive(Clone, Copy)]
pub struct Stop {
    pub turn: Turn,
    pub tally: Tally,
    pub steps: u16,
}

// The state after power-up of a board that is set up so; or 1, 2, 3 or 35 and the image as lent.
pub fn power_up(image: &mut [u8], map: &[u8], settings: Settings) -> Result<State, Refusal>
    ensures { left (Spec.powered_page result) image.new ≡ Spec.power_up_page settings image.old map.now }
{
    refusal::power_refusal(
        image.len(),
        map,
        settings.powerup,
        settings.halt,
        settings.register,
    )?;
    Ok(step::power(image, map, settings))
}

// One step over a line word: the state and the cause after it; or 1, 2, 3, 35 or 5 and the image as lent.
pub fn step(
    s: State,
    image: &mut [u8],
    map: &[u8],
    settings: Settings,
    line: u16,
) -> Result<Turn, Refusal>
    ensures { left (Spec.stepped_page result) image.new ≡ Spec.step_page settings image.old map.now line s }
{
    refusal::step_refusal(
        image.len(),
        map,
        settings.powerup,
        settings.halt,
        settings.register,
        line,
    )?;
    let lines = [line];
    let last = runs::run_on(s, image, map, settings, &lines);
    let ran = last.ran;
    let state = ran.state;
    let cause = last.cause;
    Ok(Turn { state, cause })
}

// A run over line words: the state, the blanks and the first of them after it; or 1, 2, 3, 35, 4 or 5 and the image as lent.
pub fn run(
    s: State,
    image: &mut [u8],
    map: &[u8],
    settings: Settings,
    lines: &[u16],
) -> Result<Ran, Refusal>
    ensures { left (Spec.finished_page result) image.new ≡ Spec.run_page settings image.old map.now lines.now s }
{
    refusal::run_refusal(
        image.len(),
        map,
        settings.powerup,
        settings.halt,
        settings.register,
        lines,
    )?;
    let last = runs::run_on(s, image, map, settings, lines);
    let ran = last.ran;
    Ok(ran)
}

// A run over one line word, as many steps as are asked for; or 1, 2, 3, 35 or 5 and the image as lent.
pub fn run_same(
    s: State,
    image: &mut [u8],
    map: &[u8],
    settings: Settings,
    line: u16,
    steps: u16,
) -> Result<Ran, Refusal>
    ensures { left (Spec.finished_page result) image.new ≡ run_same_page settings image.old map.now line steps s }
{
    refusal::step_refusal(
        image.len(),
        map,
        settings.powerup,
        settings.halt,
        settings.register,
        line,
    )?;
    let after = same::run_same_on(s, image, map, settings, line, steps);
    Ok(after)
}

// A run over line words that ends after the first step whose cause is asked for, or after which the processor waits or is halted; or 1,
// 2, 3, 35, 4 or 5 and the image as lent.
pub fn run_until(
    s: State,
    image: &mut [u8],
    map: &[u8],
    settings: Settings,
    lines: &[u16],
    until: Until,
) -> Result<Stop, Refusal>
    ensures { left (stopped_page result) image.new ≡ run_until_page settings image.old map.now lines.now until s }
{
    refusal::run_refusal(
        image.len(),
        map,
        settings.powerup,
        settings.halt,
        settings.register,
        lines,
    )?;
    Ok(early::until_on(s, image, map, settings, lines, until))
}
