// Checks another shop's trace of a job, and makes the trace of a job: after each step from power-up R0 to R5, SP, PC, PS and the mode.
#![tactic(auto)]

ghost use Rattle.std.specs.Prelude.{◌≡◌, [], ◌∷◌, ◌+◌, ◌≤◌, ◌<◌, length, set, take};
ghost use Rattle.std.proofs.lemmas.List.Edits.{sets};
ghost use Rattle.wordbytes.specs.Words.{low, high, bytes_in};
ghost use Rattle.board.specs.Exec.{Board, beside};
ghost use Rattle.step.specs.Step.{up};
ghost use Rattle.refusal.specs.Answer.{why_of};
ghost use Rattle.refusal.specs.Page.{left};
ghost use Rattle.machine.specs.Door.{GoodBoard};
ghost use Rattle.trace.specs.Trace as Spec;
ghost use Rattle.trace.specs.Walk as Walk;

use endline::bench_board;
use machine::door;
use refusal::Refusal;
use runjob::begin;
use state::State;
use wordbytes::{high, low, word_at};

// What a trace is found to be: right; or the first wrong step with its first wrong field and what is right there; or the first step
// that is missing, or one too many. Steps and fields count from 0.
#[derive(Clone, Copy)]
pub enum Verdict {
    Accepted,
    Wrong(u16, u16, u16),
    Missing(u16),
    Extra(u16),
}

// The bytes of the longest trace of a job, of 4,096 entries.
pub const LONGEST_TRACE: usize = 81922;

// What is read of a trace: the longest that can be counted has 1,310,702 bytes, and one byte more shows that there are bytes left over.
pub const READ_OF_TRACE: usize = 1310703;

// ---- the right trace

// An entry: R0 to R5, SP, PC, PS with bits 15 and 14 clear, as it is formed on a quiet line; the mode.
fn entry_of(s: State) -> [u16; 10]
    ensures { result ≡ Spec.entry_of s }
{
    let mode = s.mode;
    let ps = s.ps(state::hear(bench_board(), 0), false) % 0x4000;
    let number = state::mode_number(mode);
    [
        s.regs.r0,
        s.regs.r1,
        s.regs.r2,
        s.regs.r3,
        s.regs.r4,
        s.regs.r5,
        s.regs.sp,
        s.regs.pc,
        ps,
        number as u16,
    ]
}

// One step on bench's board.
fn stepped(s: State, image: &mut [u8], map: &[u8], log: &mut [u16; 32], line: u16) -> State
    requires { Board map.now (beside image.old log.old) }
    ensures { (up result image.new ≡ Walk.up_after (Walk.stepped map.now line s image.old))
        × Board map.now (beside image.new log.new) }
{
    let turn = door::step(s, image, map, log, bench_board(), line);
    turn.state
}

// ---- what a trace is found to be

// The first of two.
fn or_else(found: Verdict, later: Verdict) -> Verdict
    ensures { result ≡ Spec.or_else found later }
{
    match found {
        Verdict::Accepted => later,
        _ => found,
    }
}

// The first wrong field of the entry at a place of the trace.
fn entry_verdict(step: u16, entry: [u16; 10], trace: &[u8], at: usize) -> Verdict
    requires { (at < 4294967296) × (length entry ≡ 10) }
    ensures { result ≡ Spec.first_wrong step 0 entry (Spec.fields_from trace.now at 10) }
{
    for (field, &right) in entry.iter().enumerate() {
        if right != word_at(trace, at + field * 2) {
            return Verdict::Wrong(step, field as u16, right);
        }
    }
    Verdict::Accepted
}

// A step's own part of the verdict: it is missing, or its first wrong field.
fn step_verdict(step: u16, s: State, trace: &[u8]) -> Verdict
    ensures { result ≡ Walk.step_verdict step (Spec.entry_of s) (Walk.told_from trace.now step) }
{
    if word_at(trace, 0) <= step {
        return Verdict::Missing(step);
    }
    entry_verdict(step, entry_of(s), trace, 2 + step as usize * 20)
}

// After the last step the trace may have no further entry.
fn end_verdict(steps: u16, trace: &[u8]) -> Verdict
    ensures { result ≡ Spec.compared steps [] (Walk.told_from trace.now steps) }
{
    if steps < word_at(trace, 0) {
        return Verdict::Extra(steps);
    }
    Verdict::Accepted
}

// Steps over the line words, all of them, and holds the trace against each step; its first fault stays.
fn judge_steps(s: State, image: &mut [u8], map: &[u8], lines: &[u16], trace: &[u8]) -> Verdict
    requires { GoodBoard map.now image.old lines.now }
    ensures { (result ≡ Spec.compared 0 (Spec.entries_of (Walk.trail map.now lines.now s image.old)) (Spec.told_in trace.now))
        × (image.new ≡ Walk.image_on map.now lines.now s image.old) }
{
    let mut log = [0u16; 32];
    let mut state = s;
    let mut found = Verdict::Accepted;
    for (i, &line) in lines.iter().enumerate() {
        state = stepped(state, image, map, &mut log, line);
        found = or_else(found, step_verdict(i as u16, state, trace));
    }
    or_else(found, end_verdict(lines.len() as u16, trace))
}

// The same over the first line words of the buffer.
fn judge_first(
    s: State,
    image: &mut [u8],
    map: &[u8],
    lines: &[u16],
    count: u16,
    trace: &[u8],
) -> Verdict
    requires { (count ≤ length lines.now) × GoodBoard map.now image.old (take count lines.now) }
    ensures { (result ≡ Spec.compared 0 (Spec.entries_of (Walk.trail map.now (take count lines.now) s image.old)) (Spec.told_in trace.now))
        × (image.new ≡ Walk.image_on map.now (take count lines.now) s image.old) }
{
    let n = count as usize;
    judge_steps(s, image, map, &lines[..n], trace)
}

// The refusal of a trace: it is cut inside its count; inside a state, or bytes are left over.
fn trace_refusal(trace: &[u8]) -> Result<(), Refusal>
    ensures { why_of result ≡ Spec.why_trace trace.now }
{
    if trace.len() < 2 {
        return Err(Refusal::TraceCut);
    }
    if trace.len() != 2 + word_at(trace, 0) as usize * 20 {
        return Err(Refusal::TraceCut);
    }
    Ok(())
}

// Checks a trace of a job that is read into the lent buffers. A refusal is the job's own or else the trace's, and leaves every buffer
// as it is; nothing is compared before. After a verdict the image is as the job's last step leaves it.
pub fn check(
    input: &[u8],
    trace: &[u8],
    image: &mut [u8],
    map: &mut [u8],
    lines: &mut [u16],
) -> Result<Verdict, Refusal>
    ensures { left (Spec.checked_page result) (image.new, map.new, lines.new)
        ≡ Spec.check_of input.now trace.now image.old map.old lines.old }
{
    job::refusal(image.len(), map.len(), lines.len(), input)?; // The job's own first.
    trace_refusal(trace)?;
    let begun = begin(input, image, map, lines);
    let s = begun.state;
    let count = begun.count;
    Ok(judge_first(s, image, map, lines, count, trace))
}

// ---- the trace made

// A byte of the lent bytes; a place past their end is left alone.
fn put_byte(out: &mut [u8], at: usize, byte: u8)
    ensures { out.new ≡ set out.old at byte }
{
    // The test by hand: over `get_mut` the proof didn't close, since its contract doesn't say what a slice is after a write through it.
    if at < out.len() {
        out[at] = byte;
    }
}

// A word, low byte first.
fn put_word(out: &mut [u8], at: usize, v: u16)
    requires { at < 8589934592 }
    ensures { out.new ≡ sets out.old at (bytes_in (v ∷ [])) }
{
    put_byte(out, at, low(v));
    put_byte(out, at + 1, high(v));
}

// The ten words of an entry.
fn put_entry(out: &mut [u8], at: usize, entry: [u16; 10])
    requires { (at < 4294967296) × (length entry ≡ 10) }
    ensures { out.new ≡ sets out.old at (bytes_in entry) }
{
    for (field, &word) in entry.iter().enumerate() {
        put_word(out, at + field * 2, word);
    }
}

// Steps over the line words and puts an entry after each.
fn put_steps(s: State, image: &mut [u8], map: &[u8], lines: &[u16], out: &mut [u8])
    requires { GoodBoard map.now image.old lines.now }
    ensures { (out.new ≡ sets out.old 2 (bytes_in (Spec.joined (Spec.entries_of (Walk.trail map.now lines.now s image.old)))))
        × (image.new ≡ Walk.image_on map.now lines.now s image.old) }
{
    let mut log = [0u16; 32];
    let mut state = s;
    for (i, &line) in lines.iter().enumerate() {
        state = stepped(state, image, map, &mut log, line);
        put_entry(out, 2 + i * 20, entry_of(state));
    }
}

// The count, then the entries.
fn put_all(s: State, image: &mut [u8], map: &[u8], lines: &[u16], count: u16, out: &mut [u8])
    requires { GoodBoard map.now image.old lines.now }
    ensures { (out.new ≡ sets out.old 0 (bytes_in (count ∷ Spec.joined (Spec.entries_of (Walk.trail map.now lines.now s image.old)))))
        × (image.new ≡ Walk.image_on map.now lines.now s image.old) }
{
    put_word(out, 0, count);
    put_steps(s, image, map, lines, out);
}

// The same over the first line words of the buffer.
fn put_first(s: State, image: &mut [u8], map: &[u8], lines: &[u16], count: u16, out: &mut [u8])
    requires { (count ≤ length lines.now) × GoodBoard map.now image.old (take count lines.now) }
    ensures { (out.new ≡ sets out.old 0 (bytes_in (count ∷ Spec.joined (Spec.entries_of (Walk.trail map.now (take count lines.now) s image.old)))))
        × (image.new ≡ Walk.image_on map.now (take count lines.now) s image.old) }
{
    let n = count as usize;
    put_all(s, image, map, &lines[..n], count, out);
}

// Makes the trace of a job at the front of the lent bytes, and answers the number of its bytes. A refusal is the job's own, or else 10
// where fewer bytes are lent than the longest trace has, and leaves every buffer as it is.
pub fn make(
    input: &[u8],
    out: &mut [u8],
    image: &mut [u8],
    map: &mut [u8],
    lines: &mut [u16],
) -> Result<usize, Refusal>
    ensures { left (Spec.made_page result) (out.new, image.new, map.new, lines.new)
        ≡ Spec.make_of input.now out.old image.old map.old lines.old }
{
    job::refusal(image.len(), map.len(), lines.len(), input)?;
    if out.len() < LONGEST_TRACE {
        return Err(Refusal::OutputShort);
    }
    let begun = begin(input, image, map, lines);
    let s = begun.state;
    let count = begun.count;
    put_first(s, image, map, lines, count, out);
    Ok(2 + count as usize * 20)
}
