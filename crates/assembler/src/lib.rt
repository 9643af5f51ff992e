// The assembler for patches: a source of lines of 32 bytes in, the word section of a job out.
#![tactic(auto)]

ghost use Rattle.std.specs.Prelude.{◌≡◌, ◌≤◌, length};
ghost use Rattle.assembler.specs.Source.{line_count, most_lines};
ghost use Rattle.assembler.specs.Answer.{faults, assembled_page, source_why, section_written, checked, assembled, asm_of, longest_section};
ghost use Rattle.refusal.specs.Page.{left};
ghost use Rattle.refusal.specs.Answer.{why_of};
ghost use Rattle.assembler.specs.declared.SourceRefusal.TheVariants.{Whole};
ghost use Rattle.assembler.specs.Labels.{labelled_page, labels_page};

use crate::source::Fault;
use refusal::Refusal;

mod labelling;
mod section;
mod source;

// The most lines; with where the last one ends; and the words of all of them, three a line.
const MOST_LINES: usize = 1024;

const MOST_STARTS: usize = 1025;

const MOST_WORDS: usize = 3072;

// The bytes of the longest section: its count, and each word with its address.
pub const LONGEST_SECTION: usize = 12290;

// The bytes of the labels of all lines.
pub const MOST_LABELS: usize = 4096;

// Why a source is refused.
#[derive(Clone, Copy, PartialEq, Eq)]
pub enum SourceRefusal {
    // 10 or 36.
    Whole(Refusal),
    // 24 to 28, and the lowest line that has it, from 0.
    At(Refusal, u16),
}

impl From<Refusal> for SourceRefusal {
    ghost from_gives = { λ why r. r ≡ Whole why };

    fn from(why: Refusal) -> SourceRefusal {
        SourceRefusal::Whole(why)
    }
}

// A source of whole lines: its first fault, or its section in front of the output.
fn assemble_lines(source: &[u8], out: &mut [u8]) -> Result<u16, SourceRefusal>
    requires { (line_count source.now ≤ most_lines) × (longest_section ≤ length out.old) }
    ensures { left (assembled_page result) out.new ≡ checked faults source.now (section_written (assembled source.now) out.old) out.old }
{
    let n = source::count(source);
    let mut starts = [0u32; MOST_STARTS];
    let mut ends = [0u32; MOST_LINES];
    source::survey(source, &mut starts, &mut ends);
    let text = source::lowest_line(Fault::Text, source, &starts, &ends);
    if text < n {
        return Err(SourceRefusal::At(Refusal::UnknownText, text as u16));
    }
    let given = source::lowest_line(Fault::Given, source, &starts, &ends);
    if given < n {
        return Err(SourceRefusal::At(Refusal::LabelAgain, given as u16));
    }
    let missing = source::lowest_line(Fault::Missing, source, &starts, &ends);
    if missing < n {
        return Err(SourceRefusal::At(Refusal::LabelMissing, missing as u16));
    }
    let place = source::lowest_line(Fault::Place, source, &starts, &ends);
    if place < n {
        return Err(SourceRefusal::At(Refusal::OutOfPlace, place as u16));
    }
    let far = source::lowest_line(Fault::Far, source, &starts, &ends);
    if far < n {
        return Err(SourceRefusal::At(Refusal::OutOfReach, far as u16));
    }
    let mut table = [0u32; MOST_WORDS];
    let words = section::place_all(source, &starts, &mut table);
    let length = section::put_section(out, &table, words);
    Ok(length as u16)
}

// 10 for an output under so many bytes, 36 for a source that is not whole lines or has too many.
fn source_refusal(source: &[u8], out: usize, room: usize) -> Result<(), Refusal>
    ensures { why_of result ≡ source_why room source.now out }
{
    if out < room {
        return Err(Refusal::OutputShort);
    }
    if source.len() % 32 != 0 {
        return Err(Refusal::SourceLines);
    }
    let lines = source::count(source);
    if MOST_LINES < lines {
        return Err(Refusal::SourceLines);
    }
    Ok(())
}

// Assembles a source into the front of the output; a refusal leaves the output as lent.
pub fn assemble(source: &[u8], out: &mut [u8]) -> Result<u16, SourceRefusal>
    ensures { left (assembled_page result) out.new ≡ asm_of source.now out.old }
{
    source_refusal(source, out.len(), LONGEST_SECTION)?;
    assemble_lines(source, out)
}

// Tells each line's label and its value: four bytes a line in front of the output, the label's length and the address that the line
// begins at. A refusal leaves the output as lent: 10, 36, 24 or 25.
pub fn labels(source: &[u8], out: &mut [u8]) -> Result<u16, SourceRefusal>
    ensures { left (labelled_page result) out.new ≡ labels_page source.now out.old }
{
    source_refusal(source, out.len(), MOST_LABELS)?;
    labelling::label_lines(source, out)
}
