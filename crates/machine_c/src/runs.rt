// The runs that a board makes, over plain lent bytes: over one line word, and until something happens. c/hitchbriar.h has their layout.
ghost use Rattle.std.specs.Prelude.{◌≡◌};
ghost use Rattle.refusal.specs.Page.{told};
ghost use Rattle.machine.specs.Numbers as Page;
ghost use Rattle.machine_c.specs.Layout as Layout;
ghost use Rattle.machine_c.specs.Runs as Spec;

use crate::layout::{
    place_of, place_told, put_state, put_tally, refused_run, refused_step, settings_from,
    state_from,
};
use machine::{Tally, Until};
use refusal::Refusal;
use wordbytes::{high, low};

// So many steps over one line word; or 21, 1, 2, 3, 35 or 5.
#[unsafe(no_mangle)]
pub extern "C" fn wd16_run_same(
    state: &mut [u8],
    tally: &mut [u8],
    image: &mut [u8],
    map: &[u8],
    settings: &[u8],
    line: u16,
    steps: u16,
) -> u8
    ensures { told result (state.new, tally.new, image.new) ≡ Spec.run_same_call state.old tally.old image.old map.now settings.now line steps }
{
    if refused_run(state, tally, settings) {
        return u8::from(Refusal::NoState);
    }
    match machine::run_same(
        state_from(state),
        image,
        map,
        settings_from(settings),
        line,
        steps,
    ) {
        Ok(ran) => {
            let after = ran.state;
            let counted = ran.tally;
            put_state(state, after, 0, None);
            put_tally(tally, counted);
            0
        }
        Err(why) => u8::from(why),
    }
}

// What a byte asks for: 1 an interrupt taken, 2 a blank, 4 a lock-up, 8 the halt switch taken.
fn until_from(asked: u8) -> Until
    ensures { result ≡ Spec.until_from asked }
{
    Until {
        interrupt: asked % 2 == 1,
        blank: asked / 2 % 2 == 1,
        lock: asked / 4 % 2 == 1,
        switch: asked / 8 % 2 == 1,
    }
}

// What a run that may end early refuses as 21.
fn refused_until(b: &[u8], t: &[u8], w: &[u8], asked: u8) -> bool
    ensures { result ≡ Spec.refused_until b.now t.now w.now asked }
{
    refused_step(b, w) | (t.len() != 8) | (15 < asked)
}

// The blanks, the place of the first, the address that it told, and the steps.
fn stop_bytes(t: Tally, steps: u16) -> [u8; 8]
    ensures { result ≡ Spec.stop_bytes t.blanks (Page.first_page t.first) steps }
{
    let first = t.first;
    let place = place_of(first);
    let address = place_told(first);
    [
        low(t.blanks),
        high(t.blanks),
        low(place),
        high(place),
        low(address),
        high(address),
        low(steps),
        high(steps),
    ]
}

// The same over a lent buffer of 8 bytes; another is left as lent.
fn put_stop(b: &mut [u8], t: Tally, steps: u16)
    ensures { b.new ≡ Layout.laid (Spec.stop_bytes t.blanks (Page.first_page t.first) steps) b.old }
{
    if b.len() != 8 {
        return;
    }
    let from = stop_bytes(t, steps);
    b.copy_from_slice(&from);
}

// A run over line words that ends after the first step whose cause is asked for, or after which the processor waits or is halted; or 21,
// 1, 2, 3, 35, 4 or 5.
#[unsafe(no_mangle)]
pub extern "C" fn wd16_run_until(
    state: &mut [u8],
    tally: &mut [u8],
    image: &mut [u8],
    map: &[u8],
    settings: &[u8],
    lines: &[u16],
    until: u8,
) -> u8
    ensures { told result (state.new, tally.new, image.new) ≡ Spec.run_until_call state.old tally.old image.old map.now settings.now lines.now until }
{
    if refused_until(state, tally, settings, until) {
        return u8::from(Refusal::NoState);
    }
    match machine::run_until(
        state_from(state),
        image,
        map,
        settings_from(settings),
        lines,
        until_from(until),
    ) {
        Ok(stop) => {
            let turn = stop.turn;
            let after = turn.state;
            let cause = turn.cause;
            let counted = stop.tally;
            put_state(
                state,
                after,
                step::cause_number(cause),
                step::address_of(cause),
            );
            put_stop(tally, counted, stop.steps);
            0
        }
        Err(why) => u8::from(why),
    }
}
