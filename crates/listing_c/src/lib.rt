// The listing for C, over plain lent bytes. c/hitchbriar.h has the answer's layout.
#![tactic(auto)]

ghost use Rattle.std.specs.Prelude.{◌≡◌, ◌<◌};
ghost use Rattle.refusal.specs.Page.{told};
ghost use Rattle.answer.specs.Answer.{SixBytes};
ghost use Rattle.listing.specs.Calls.{lined_of};
ghost use Rattle.listing_c.specs.Calls as Spec;

use listing::Listed;

// The answer's words: the line's length, and the next line's address and 0, or 0 and 1 where there is none.
fn put_line(answer: &mut [u8], line: Listed)
    requires { SixBytes answer.old × (line.length < 65536) }
    ensures { answer.new ≡ Spec.next_words_of (lined_of line) }
{
    let size = line.length as u16;
    match line.next {
        Some(next) => answer::put(answer, size, next, 0),
        None => answer::put(answer, size, 0, 1),
    }
}

// Writes the line at the address `first` of a stretch that ends at `last` in front of the text; or 21, 1, 2, 3, 23 or 8.
#[unsafe(no_mangle)]
pub extern "C" fn wd16_list_line(
    image: &[u8],
    map: &[u8],
    first: u16,
    last: u16,
    text: &mut [u8],
    answer: &mut [u8],
) -> u8
    ensures { told result (text.new, answer.new) ≡ Spec.list_call image.now map.now first last text.old answer.old }
{
    if let Err(why) = answer::refusal(answer) {
        return u8::from(why);
    }
    match listing::list_line(image, map, first, last, text) {
        Ok(line) => {
            put_line(answer, line);
            0
        }
        Err(why) => u8::from(why),
    }
}
