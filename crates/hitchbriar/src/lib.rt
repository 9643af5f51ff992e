// Every function for C in one library, each over that of its own crate and with its contract: who calls several has the processor once. c/hitchbriar.h has their layout.
#![tactic(auto)]

ghost use Rattle.std.specs.Prelude.{◌≡◌};
ghost use Rattle.refusal.specs.Page.{told};
ghost use Rattle.machine_c.specs.Calls as Firmware;
ghost use Rattle.machine_c.specs.Runs as Runs;
ghost use Rattle.recorder_c.specs.Calls as Recorder;
ghost use Rattle.optext_c.specs.Calls as Text;
ghost use Rattle.assembler_c.specs.Call as Assembler;
ghost use Rattle.listing_c.specs.Calls as Listing;
ghost use Rattle.job_c.specs.Calls as Job;
ghost use Rattle.trace_c.specs.Calls as Trace;

// The state after power-up; or 21, 1, 2, 3 or 35.
#[unsafe(no_mangle)]
pub extern "C" fn wd16_power_up(
    state: &mut [u8],
    image: &mut [u8],
    map: &[u8],
    settings: &[u8],
) -> u8
    ensures { told result (state.new, image.new) ≡ Firmware.power_up_call state.old image.old map.now settings.now }
{
    machine_c::wd16_power_up(state, image, map, settings)
}

// One step over a line word; or 21, 1, 2, 3, 35 or 5.
#[unsafe(no_mangle)]
pub extern "C" fn wd16_step(
    state: &mut [u8],
    image: &mut [u8],
    map: &[u8],
    settings: &[u8],
    line: u16,
) -> u8
    ensures { told result (state.new, image.new) ≡ Firmware.step_call state.old image.old map.now settings.now line }
{
    machine_c::wd16_step(state, image, map, settings, line)
}

// A run over line words; or 21, 1, 2, 3, 35, 4 or 5.
#[unsafe(no_mangle)]
pub extern "C" fn wd16_run(
    state: &mut [u8],
    tally: &mut [u8],
    image: &mut [u8],
    map: &[u8],
    settings: &[u8],
    lines: &[u16],
) -> u8
    ensures { told result (state.new, tally.new, image.new) ≡ Firmware.run_call state.old tally.old image.old map.now settings.now lines.now }
{
    machine_c::wd16_run(state, tally, image, map, settings, lines)
}

// So many steps over one line word; or 21, 1, 2, 3, 35 or 5.
#[unsafe(no_mangle)]
pub extern "C" fn wd16_run_same(
    state: &mut [u8],
    tally: &mut [u8],
    image: &mut [u8],
    map: &[u8],
    settings: &[u8],
    line: u16,
    steps: u16,
) -> u8
    ensures { told result (state.new, tally.new, image.new) ≡ Runs.run_same_call state.old tally.old image.old map.now settings.now line steps }
{
    machine_c::runs::wd16_run_same(state, tally, image, map, settings, line, steps)
}

// A run over line words that ends after the first step whose cause is asked for, or after which the processor waits or is halted; or 21,
// 1, 2, 3, 35, 4 or 5.
#[unsafe(no_mangle)]
pub extern "C" fn wd16_run_until(
    state: &mut [u8],
    tally: &mut [u8],
    image: &mut [u8],
    map: &[u8],
    settings: &[u8],
    lines: &[u16],
    until: u8,
) -> u8
    ensures { told result (state.new, tally.new, image.new) ≡ Runs.run_until_call state.old tally.old image.old map.now settings.now lines.now until }
{
    machine_c::runs::wd16_run_until(state, tally, image, map, settings, lines, until)
}

// One scan; or 21, 1, 2, 3, 35, 4, 5, 33 or 37.
#[unsafe(no_mangle)]
pub extern "C" fn wd16_scan(
    state: &mut [u8],
    tally: &mut [u8],
    image: &mut [u8],
    map: &[u8],
    settings: &[u8],
    lines: &[u16],
    cards: &[u8],
    readings: &[u16],
    recorder: &mut [u8],
) -> u8
    ensures { told result (state.new, tally.new, image.new, recorder.new)
        ≡ Recorder.scan_call state.old tally.old image.old map.now settings.now lines.now cards.now readings.now recorder.old }
{
    recorder_c::wd16_scan(
        state, tally, image, map, settings, lines, cards, readings, recorder,
    )
}

// The report of the channel whose number the one byte is; or 21 or 34.
#[unsafe(no_mangle)]
pub extern "C" fn wd16_report(recorder: &[u8], channel: &[u8], report: &mut [u8]) -> u8
    ensures { told result report.new ≡ Recorder.report_call recorder.now channel.now report.old }
{
    recorder_c::wd16_report(recorder, channel, report)
}

// Writes the text of the op code that begins the words into the text buffer; the answer is the line's length, the words taken,
// and 0. Or 21, 38, 8, 6 or 7.
#[unsafe(no_mangle)]
pub extern "C" fn wd16_write_text(words: &[u8], text: &mut [u8], answer: &mut [u8]) -> u8
    ensures { told result (text.new, answer.new) ≡ Text.write_call words.now text.old answer.old }
{
    optext_c::wd16_write_text(words, text, answer)
}

// Reads a whole lent text into the words' bytes; the answer is the number of words, 0 and 0, or for 9, 30, 31 and 32 it is 0, 0
// and the column. Or 21, 38 or 10.
#[unsafe(no_mangle)]
pub extern "C" fn wd16_read_text(text: &[u8], words: &mut [u8], answer: &mut [u8]) -> u8
    ensures { Text.ReadCall text.now words.old answer.old (told result (words.new, answer.new)) }
{
    optext_c::wd16_read_text(text, words, answer)
}

// Assembles a source into the front of the section; or 21, 10, 36, 24, 25, 26, 28 or 27.
#[unsafe(no_mangle)]
pub extern "C" fn wd16_assemble(source: &[u8], section: &mut [u8], answer: &mut [u8]) -> u8
    ensures { told result (section.new, answer.new) ≡ Assembler.assemble_call source.now section.old answer.old }
{
    assembler_c::wd16_assemble(source, section, answer)
}

// Tells each line's label and its value, four bytes a line, in front of the labels; or 21, 10, 36, 24 or 25.
#[unsafe(no_mangle)]
pub extern "C" fn wd16_labels(source: &[u8], labels: &mut [u8], answer: &mut [u8]) -> u8
    ensures { told result (labels.new, answer.new) ≡ Assembler.labels_call source.now labels.old answer.old }
{
    assembler_c::wd16_labels(source, labels, answer)
}

// Writes the line at the address `first` of a stretch that ends at `last` in front of the text; or 21, 1, 2, 3, 23 or 8.
#[unsafe(no_mangle)]
pub extern "C" fn wd16_list_line(
    image: &[u8],
    map: &[u8],
    first: u16,
    last: u16,
    text: &mut [u8],
    answer: &mut [u8],
) -> u8
    ensures { told result (text.new, answer.new) ≡ Listing.list_call image.now map.now first last text.old answer.old }
{
    listing_c::wd16_list_line(image, map, first, last, text, answer)
}

// Reads a job into the image, the map and the line words; or 21, 1, 2, 4 or the job's own refusal.
#[unsafe(no_mangle)]
pub extern "C" fn wd16_read_job(
    job: &[u8],
    image: &mut [u8],
    map: &mut [u8],
    lines: &mut [u16],
    answer: &mut [u8],
) -> u8
    ensures { told result (image.new, map.new, lines.new, answer.new) ≡ Job.read_call job.now image.old map.old lines.old answer.old }
{
    job_c::wd16_read_job(job, image, map, lines, answer)
}

// Checks a trace of a job; or 21, the job's own refusal, or 29. The image, the map and the line words are the call's own.
#[unsafe(no_mangle)]
pub extern "C" fn wd16_check_trace(job: &[u8], trace: &[u8], verdict: &mut [u8]) -> u8
    ensures { told result verdict.new ≡ Trace.check_call job.now trace.now verdict.old }
{
    trace_c::wd16_check_trace(job, trace, verdict)
}
