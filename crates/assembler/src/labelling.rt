// The labels of a source: for each line the length of its label, and the address that the line begins at, which is the label's value.
ghost use Rattle.std.specs.Prelude.{◌≡◌, ◌++◌, ◌+◌, ◌*◌, ◌≤◌, length};
ghost use Rattle.hexdigits.specs.Over.{Wrote, WroteAt};
ghost use Rattle.refusal.specs.Page.{left};
ghost use Rattle.assembler.specs.Source.{line_count, Starts, most_lines};
ghost use Rattle.assembler.specs.Section.{pair};
ghost use Rattle.assembler.specs.Answer.{section_written, checked};
ghost use Rattle.assembler.specs.Labels as Spec;

use super::{MOST_LINES, MOST_STARTS};
use crate::SourceRefusal;
use crate::section::put_count;
use crate::source::{Fault, count, here, line_at, lowest_line, survey};
use patchline::text::label;
use refusal::Refusal;

fn pair_at(out: &mut [u8], at: usize, n: usize) -> usize
    requires { at + 2 ≤ length out.old }
    ensures { WroteAt at (pair n) out.old out.new result }
{
    at + put_count(&mut out[at..], n)
}

// A line's four bytes.
fn line_label_at(out: &mut [u8], at: usize, n: usize, h: u16) -> usize
    requires { at + 4 ≤ length out.old }
    ensures { WroteAt at (pair n ++ pair h) out.old out.new result }
{
    let next = pair_at(out, at, n);
    pair_at(out, next, h as usize)
}

// All lines'.
fn put_labels(source: &[u8], starts: &[u32; MOST_STARTS], out: &mut [u8]) -> usize
    requires { Starts source.now starts.now × (Spec.most_labels ≤ length out.old) }
    ensures { Wrote (Spec.labels_of source.now) out.old out.new result × (result ≤ Spec.most_labels) }
{
    let lines = count(source);
    let mut at = 0;
    for i in 0..lines {
        let name = label(line_at(source, i));
        let n = name.len();
        at = line_label_at(out, at, n, here(source, starts, i));
    }
    at
}

// A source of whole lines: its first fault of those that make labels doubtful, or its labels in front of the output.
pub(crate) fn label_lines(source: &[u8], out: &mut [u8]) -> Result<u16, SourceRefusal>
    requires { (line_count source.now ≤ most_lines) × (Spec.most_labels ≤ length out.old) }
    ensures { left (Spec.labelled_page result) out.new ≡ checked Spec.label_faults source.now (section_written (Spec.labels_of source.now) out.old) out.old }
{
    let n = count(source);
    let mut starts = [0u32; MOST_STARTS];
    let mut ends = [0u32; MOST_LINES];
    survey(source, &mut starts, &mut ends);
    let text = lowest_line(Fault::Text, source, &starts, &ends);
    if text < n {
        return Err(SourceRefusal::At(Refusal::UnknownText, text as u16));
    }
    let given = lowest_line(Fault::Given, source, &starts, &ends);
    if given < n {
        return Err(SourceRefusal::At(Refusal::LabelAgain, given as u16));
    }
    let length = put_labels(source, &starts, out);
    Ok(length as u16)
}
