// The line of a run's end, on bench's board and on others: the machine's answer in the line's own fields.
#![tactic(auto)]

ghost use Rattle.std.specs.Prelude.{◌≡◌};
ghost use Rattle.benchline.specs.Line.{printed_page, print_of};
ghost use Rattle.refusal.specs.Page.{left};
ghost use Rattle.machine.specs.Numbers.{registers_of};
ghost use Rattle.endline.specs.Report as Spec;

use machine::{FirstBlank, Ran};
use refusal::Refusal;
use state::{Settings, State};

// How bench's board is set up: the third microm is fitted, the jumpers are 11 and 11.
pub fn bench_board() -> Settings
    ensures { result ≡ Spec.bench_board }
{
    Settings {
        blocks: true,
        powerup: 3,
        halt: 3,
        register: 0,
    }
}

// The registers in the line's order.
fn registers(s: State) -> [u16; 8]
    ensures { result ≡ registers_of s }
{
    [
        s.regs.r0, s.regs.r1, s.regs.r2, s.regs.r3, s.regs.r4, s.regs.r5, s.regs.sp, s.regs.pc,
    ]
}

// The first blank's place.
fn place(first: Option<FirstBlank>) -> Option<u16>
    ensures { result ≡ Spec.blank_place first }
{
    match first {
        Some(blank) => Some(blank.place),
        None => None,
    }
}

// The address that it told.
fn address(first: Option<FirstBlank>) -> Option<u16>
    ensures { result ≡ Spec.blank_address first }
{
    match first {
        Some(blank) => Some(blank.address),
        None => None,
    }
}

// Writes the line of a run's end on a board; or 8 where the text is under 61.
pub fn write_end_on(text: &mut [u8], ran: Ran, board: Settings) -> Result<usize, Refusal>
    ensures { left (printed_page result) text.new ≡ print_of (Spec.end_on board ran) text.old }
{
    let s = ran.state;
    let tally = ran.tally;
    let mode = s.mode;
    let first = tally.first;
    let regs = registers(s);
    let ps = s.ps(state::hear(board, 0), false);
    let number = state::mode_number(mode);
    let at = place(first);
    let told = address(first);
    benchline::write_line(text, regs, ps, number, tally.blanks, at, told)
}

// The same on bench's board.
pub fn write_end(text: &mut [u8], ran: Ran) -> Result<usize, Refusal>
    ensures { left (printed_page result) text.new ≡ print_of (Spec.end_text ran) text.old }
{
    write_end_on(text, ran, bench_board())
}
