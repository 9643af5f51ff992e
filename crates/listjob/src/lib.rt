// A listing from end to end: the bytes of two addresses and a job in, the stretch's lines out.
#![tactic(auto)]

ghost use Rattle.std.specs.Prelude.{◌≡◌, ◌+◌, ◌≤◌, length};
ghost use Rattle.hexdigits.specs.Over.{Wrote, WroteAt};
ghost use Rattle.refusal.specs.Page.{left};
ghost use Rattle.refusal.specs.Answer.{why_of};
ghost use Rattle.benchline.specs.Line.{printed_page};
ghost use Rattle.listing.specs.Calls.{line_why};
ghost use Rattle.listjob.specs.Stretch as Spec;

use hexdigits::put_text;
use listing::Listed;
use refusal::Refusal;
use wordbytes::word_at;

// Room for the longest listing.
pub const STRETCH_ROOM: usize = 1146932;

// The end of a line, and the same in its place of the text.
fn put_end(out: &mut [u8]) -> usize
    requires { 1 ≤ length out.old }
    ensures { Wrote Spec.line_end out.old out.new result }
{
    put_text(out, b"\n")
}

fn end_at(text: &mut [u8], at: usize) -> usize
    requires { at + 1 ≤ length text.old }
    ensures { WroteAt at Spec.line_end text.old text.new result }
{
    at + put_end(&mut text[at..])
}

// The line at the address a with its end, in front of the text: where it ends, and the next address.
fn put_line(image: &[u8], map: &[u8], a: u16, last: u16, text: &mut [u8]) -> Listed
    requires { line_why (length image.now) map.now a last (length text.old) ≡ 0 }
    ensures { Wrote (Spec.ended_at image.now map.now a last) text.old text.new result.length × Spec.Goes image.now map.now a last result }
{
    match listing::list_line(image, map, a, last, text) {
        Ok(line) => Listed {
            length: end_at(text, line.length),
            next: line.next,
        },
        Err(_) => unreachable!(),
    }
}

// The same from a place of the text on.
fn line_at(image: &[u8], map: &[u8], a: u16, last: u16, text: &mut [u8], at: usize) -> Listed
    requires { Spec.LineFits image.now map.now a last at text.old }
    ensures { WroteAt at (Spec.ended_at image.now map.now a last) text.old text.new result.length
        × Spec.Goes image.now map.now a last result }
{
    let line = put_line(image, map, a, last, &mut text[at..]);
    Listed {
        length: at + line.length,
        next: line.next,
    }
}

// The lines of a stretch, one after the other; answers where they end.
fn list_all(image: &[u8], map: &[u8], first: u16, last: u16, text: &mut [u8]) -> usize
    requires { Spec.Lists image.now map.now first last text.old }
    ensures { Wrote (Spec.listing_on image.now map.now first last) text.old text.new result }
{
    let mut a = first;
    let mut at = 0;
    loop {
        let line = line_at(image, map, a, last, text, at);
        match line.next {
            Some(next) => {
                at = line.length;
                a = next;
            }
            None => return line.length,
        }
    }
}

// 8, 11, the job's own, 23.
fn list_refusal(
    text: usize,
    input: &[u8],
    image: usize,
    map: usize,
    lines: usize,
) -> Result<(), Refusal>
    ensures { why_of result ≡ Spec.list_why input.now text image map lines }
{
    if text < STRETCH_ROOM {
        return Err(Refusal::TextShort);
    }
    if input.len() < 4 {
        return Err(Refusal::JobEnds);
    }
    job::refusal(image, map, lines, &input[4..])?;
    if listing::bad_stretch(word_at(input, 0), word_at(input, 2)) {
        return Err(Refusal::NoStretch);
    }
    Ok(())
}

// Lists the stretch of a job's image between the two addresses that stand before the job, into the front of the text: address, words,
// text, a space apart, one op code a line. The answer is the listing's length; or 8 where the text is under 1,146,932, 11 where the
// addresses are cut, the job's own refusal, 23 where an address is odd or the last is below the first. A refusal leaves every buffer as
// it is.
pub fn list_job(
    text: &mut [u8],
    input: &[u8],
    image: &mut [u8],
    map: &mut [u8],
    lines: &mut [u16],
) -> Result<usize, Refusal>
    ensures { left (printed_page result) (text.new, image.new, map.new, lines.new)
        ≡ Spec.list_of input.now text.old image.old map.old lines.old }
{
    list_refusal(text.len(), input, image.len(), map.len(), lines.len())?;
    job::fill(&input[4..], image, map, lines);
    Ok(list_all(image, map, word_at(input, 0), word_at(input, 2), text))
}
