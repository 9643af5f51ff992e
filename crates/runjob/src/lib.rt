// A job from end to end: its bytes in, bench's line out.
#![tactic(auto)]

ghost use Rattle.std.specs.Prelude.{◌≡◌, ◌≤◌, length, take};
ghost use Rattle.refusal.specs.Page.{left};
ghost use Rattle.benchline.specs.Line.{printed_page};
ghost use Rattle.machine.specs.Entry.{finished_page};
ghost use Rattle.machine.specs.Door.{GoodBoard, Runs};
ghost use Rattle.endline.specs.Report.{bench_board};
ghost use Rattle.runjob.specs.Bench as Spec;

use endline::bench_board;
use machine::{Ran, door};
use refusal::Refusal;
use state::State;

// Where a job begins: the state after power-up, and the number of its line words.
#[derive(Clone, Copy)]
pub struct Started {
    pub state: State,
    pub count: u16,
}

// Reads a job that is known not to be refused into the lent buffers, and powers up bench's board.
pub fn begin(input: &[u8], image: &mut [u8], map: &mut [u8], lines: &mut [u16]) -> Started
    requires { Spec.Accepted input.now image.old map.old lines.old }
    ensures { Spec.RunBegins input.now result image.new map.new lines.new }
{
    let count = job::fill(input, image, map, lines);
    let state = step::power(image, map, bench_board());
    Started { state, count }
}

// Runs over the first line words of the buffer, on bench's board.
fn run_first(s: State, image: &mut [u8], map: &[u8], lines: &[u16], count: u16) -> Ran
    requires { (count ≤ length lines.now) × GoodBoard map.now image.old (take count lines.now) }
    ensures { Runs bench_board map.now (take count lines.now) s image.old result image.new }
{
    let n = count as usize;
    door::run(s, image, map, bench_board(), &lines[..n])
}

// Reads a job into the lent buffers, powers up bench's board and runs over the job's line words; or the job's own refusal.
pub fn run(
    input: &[u8],
    image: &mut [u8],
    map: &mut [u8],
    lines: &mut [u16],
) -> Result<Ran, Refusal>
    ensures { left (finished_page result) (image.new, map.new, lines.new)
        ≡ Spec.job_run input.now image.old map.old lines.old }
{
    job::refusal(image.len(), map.len(), lines.len(), input)?;
    let begun = begin(input, image, map, lines);
    let s = begun.state;
    let count = begun.count;
    Ok(run_first(s, image, map, lines, count))
}

// The same, and bench's line in front of the text; or 8 where the text is under 61, then the job's own refusal. A refusal leaves
// every buffer as it is.
pub fn run_job(
    text: &mut [u8],
    input: &[u8],
    image: &mut [u8],
    map: &mut [u8],
    lines: &mut [u16],
) -> Result<usize, Refusal>
    ensures { left (printed_page result) (text.new, image.new, map.new, lines.new)
        ≡ Spec.bench_of input.now text.old image.old map.old lines.old }
{
    if text.len() < 61 {
        return Err(Refusal::TextShort);
    }
    let ran = run(input, image, map, lines)?;
    endline::write_end(text, ran)
}
