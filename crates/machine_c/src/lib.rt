// The processor for C: power-up, one step and a run over plain lent bytes. c/hitchbriar.h has their layout.
#![tactic(auto)]

ghost use Rattle.std.specs.Prelude.{◌≡◌};
ghost use Rattle.refusal.specs.Page.{told};
ghost use Rattle.machine_c.specs.Calls as Spec;

use layout::{
    put_state, put_tally, refused_run, refused_step, refused_up, settings_from, state_from,
};
use refusal::Refusal;

pub mod layout;
pub mod runs;

// The state after power-up; or 21, 1, 2, 3 or 35.
#[unsafe(no_mangle)]
pub extern "C" fn wd16_power_up(
    state: &mut [u8],
    image: &mut [u8],
    map: &[u8],
    settings: &[u8],
) -> u8
    ensures { told result (state.new, image.new) ≡ Spec.power_up_call state.old image.old map.now settings.now }
{
    if refused_up(state, settings) {
        return u8::from(Refusal::NoState);
    }
    match machine::power_up(image, map, settings_from(settings)) {
        Ok(s) => {
            put_state(state, s, 0, None);
            0
        }
        Err(why) => u8::from(why),
    }
}

// One step over a line word; or 21, 1, 2, 3, 35 or 5.
#[unsafe(no_mangle)]
pub extern "C" fn wd16_step(
    state: &mut [u8],
    image: &mut [u8],
    map: &[u8],
    settings: &[u8],
    line: u16,
) -> u8
    ensures { told result (state.new, image.new) ≡ Spec.step_call state.old image.old map.now settings.now line }
{
    if refused_step(state, settings) {
        return u8::from(Refusal::NoState);
    }
    match machine::step(state_from(state), image, map, settings_from(settings), line) {
        Ok(t) => {
            let after = t.state;
            let cause = t.cause;
            put_state(
                state,
                after,
                step::cause_number(cause),
                step::address_of(cause),
            );
            0
        }
        Err(why) => u8::from(why),
    }
}

// A run over line words; or 21, 1, 2, 3, 35, 4 or 5.
#[unsafe(no_mangle)]
pub extern "C" fn wd16_run(
    state: &mut [u8],
    tally: &mut [u8],
    image: &mut [u8],
    map: &[u8],
    settings: &[u8],
    lines: &[u16],
) -> u8
    ensures { told result (state.new, tally.new, image.new) ≡ Spec.run_call state.old tally.old image.old map.now settings.now lines.now }
{
    if refused_run(state, tally, settings) {
        return u8::from(Refusal::NoState);
    }
    match machine::run(
        state_from(state),
        image,
        map,
        settings_from(settings),
        lines,
    ) {
        Ok(ran) => {
            let after = ran.state;
            let counted = ran.tally;
            put_state(state, after, 0, None);
            put_tally(tally, counted);
            0
        }
        Err(why) => u8::from(why),
    }
}
