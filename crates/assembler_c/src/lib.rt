// The assembler for C, over plain lent bytes. c/hitchbriar.h has the answer's layout.
#![tactic(auto)]

ghost use Rattle.std.specs.Prelude.{◌≡◌, ℕ, List};
ghost use Rattle.refusal.specs.Page.{left, told};
ghost use Rattle.answer.specs.Answer.{SixBytes, answering};
ghost use Rattle.assembler.specs.Answer.{assembled_page};
ghost use Rattle.assembler_c.specs.Call as Spec;

use assembler::SourceRefusal;

// Tells what a call over a source came to: its number, with the size or the line of a refusal in the answer.
fn tell(answer: &mut [u8], outcome: Result<u16, SourceRefusal>) -> u8
    requires { SixBytes answer.old }
    ensures { (out : List ℕ) → told result (out, answer.new) ≡ answering Spec.size_words answer.old (left (assembled_page outcome) out) }
{
    match outcome {
        Ok(size) => {
            answer::put(answer, size, 0, 0);
            0
        }
        Err(SourceRefusal::Whole(why)) => u8::from(why),
        Err(SourceRefusal::At(why, line)) => {
            answer::put(answer, 0, 0, line);
            u8::from(why)
        }
    }
}

// Assembles a source into the front of the section; or 21, 10, 36, 24, 25, 26, 28 or 27.
#[unsafe(no_mangle)]
pub extern "C" fn wd16_assemble(source: &[u8], section: &mut [u8], answer: &mut [u8]) -> u8
    ensures { told result (section.new, answer.new) ≡ Spec.assemble_call source.now section.old answer.old }
{
    if let Err(why) = answer::refusal(answer) {
        return u8::from(why);
    }
    tell(answer, assembler::assemble(source, section))
}

// Tells each line's label and its value, four bytes a line, in front of the labels; or 21, 10, 36, 24 or 25.
#[unsafe(no_mangle)]
pub extern "C" fn wd16_labels(source: &[u8], labels: &mut [u8], answer: &mut [u8]) -> u8
    ensures { told result (labels.new, answer.new) ≡ Spec.labels_call source.now labels.old answer.old }
{
    if let Err(why) = answer::refusal(answer) {
        return u8::from(why);
    }
    tell(answer, assembler::labels(source, labels))
}
