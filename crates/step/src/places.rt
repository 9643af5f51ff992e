// The nine places: R0 to R5, SP, PC and PS as words at 0 to 10 (hex), saved by a halt option and picked up again.
ghost use Rattle.std.specs.Prelude.{◌≡◌};
ghost use Rattle.board.specs.Exec.{beside, Lent, Board, Saw, Works};
ghost use Rattle.step.specs.Places as Spec;

use board::Blank;
use state::{Mode, Outside, State};
use wordmath::address::plus;

// Register k is kept at its place.
fn keep(s: State, image: &mut [u8], map: &[u8], log: &mut [u16; 32], k: u16) -> Result<(), Blank>
    requires { Board map.now (beside image.old log.old) }
    ensures { Works map.now (Spec.keep s k) image.old log.old result image.new log.new }
{
    board::store(image, map, log, plus(k, k), s.reg(k))
}

// Register k is picked up from its place.
fn pick_up(s: State, image: &[u8], map: &[u8], k: u16) -> Result<State, Blank>
    requires { Lent map.now image.now }
    ensures { Saw map.now (Spec.pick_up s k) image.now result }
{
    let place = plus(k, k);
    let v = board::load(image, map, place)?;
    Ok(s.with_reg(k, v))
}

// Four registers are kept, one after the other.
fn keep_four(
    s: State,
    image: &mut [u8],
    map: &[u8],
    log: &mut [u16; 32],
    h: u16,
    i: u16,
    j: u16,
    k: u16,
) -> Result<(), Blank>
    requires { Board map.now (beside image.old log.old) }
    ensures { Works map.now (Spec.keep_four s h i j k) image.old log.old result image.new log.new }
{
    keep(s, image, map, log, h)?;
    keep(s, image, map, log, i)?;
    keep(s, image, map, log, j)?;
    keep(s, image, map, log, k)
}

// R0 to R5, SP, PC.
fn keep_registers(s: State, image: &mut [u8], map: &[u8], log: &mut [u16; 32]) -> Result<(), Blank>
    requires { Board map.now (beside image.old log.old) }
    ensures { Works map.now (Spec.keep_registers s) image.old log.old result image.new log.new }
{
    keep_four(s, image, map, log, 0, 1, 2, 3)?;
    keep_four(s, image, map, log, 4, 5, 6, 7)
}

// Four registers are picked up, one after the other.
fn pick_up_four(
    s: State,
    image: &[u8],
    map: &[u8],
    h: u16,
    i: u16,
    j: u16,
    k: u16,
) -> Result<State, Blank>
    requires { Lent map.now image.now }
    ensures { Saw map.now (Spec.pick_up_four s h i j k) image.now result }
{
    let s1 = pick_up(s, image, map, h)?;
    let s2 = pick_up(s1, image, map, i)?;
    let s3 = pick_up(s2, image, map, j)?;
    pick_up(s3, image, map, k)
}

fn pick_up_registers(s: State, image: &[u8], map: &[u8]) -> Result<State, Blank>
    requires { Lent map.now image.now }
    ensures { Saw map.now (Spec.pick_up_registers s) image.now result }
{
    let t = pick_up_four(s, image, map, 0, 1, 2, 3)?;
    pick_up_four(t, image, map, 4, 5, 6, 7)
}

// Saved with the PS formed now; then nothing is done until I3 is clear.
pub(crate) fn save_places(
    s: State,
    image: &mut [u8],
    map: &[u8],
    log: &mut [u16; 32],
    out: Outside,
) -> Result<State, Blank>
    requires { Board map.now (beside image.old log.old) }
    ensures { Works map.now (Spec.save_places out s) image.old log.old result image.new log.new }
{
    keep_registers(s, image, map, log)?;
    board::store(image, map, log, 0x10, s.ps(out, false))?;
    Ok(s.with_mode(Mode::Saved))
}

// Picked up, PS as if popped, and running.
pub(crate) fn restore_places(s: State, image: &[u8], map: &[u8]) -> Result<State, Blank>
    requires { Lent map.now image.now }
    ensures { Saw map.now (Spec.restore_places s) image.now result }
{
    let t = pick_up_registers(s, image, map)?;
    let ps = board::load(image, map, 0x10)?;
    Ok(t.with_status(ps).with_mode(Mode::Running))
}
