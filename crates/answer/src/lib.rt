// The answer of a call for C: three words in six lent bytes, low byte first.
#![tactic(auto)]

ghost use Rattle.std.specs.Prelude.{◌≡◌};
ghost use Rattle.refusal.specs.Answer.{why_of};
ghost use Rattle.answer.specs.Answer as Spec;

use refusal::Refusal;
use wordbytes::{high, low};

// 21 for another length.
pub fn refusal(answer: &[u8]) -> Result<(), Refusal>
    ensures { why_of result ≡ Spec.answer_why answer.now }
{
    if answer.len() == 6 {
        Ok(())
    } else {
        Err(Refusal::NoState)
    }
}

fn three(a: u16, b: u16, c: u16) -> [u8; 6]
    ensures { result ≡ Spec.three_words a b c }
{
    [low(a), high(a), low(b), high(b), low(c), high(c)]
}

pub fn put(answer: &mut [u8], a: u16, b: u16, c: u16)
    requires { Spec.SixBytes answer.old }
    ensures { answer.new ≡ Spec.three_words a b c }
{
    let from = three(a, b, c);
    answer.copy_from_slice(&from);
}
