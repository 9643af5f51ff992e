// The check of another shop's trace for C, over plain lent bytes. c/hitchbriar.h has their layout.
#![tactic(auto)]

ghost use Rattle.std.specs.Prelude.{◌≡◌};
ghost use Rattle.refusal.specs.Answer.{why_of};
ghost use Rattle.refusal.specs.Page.{told};
ghost use Rattle.answer.specs.Answer.{SixBytes};
ghost use Rattle.trace.specs.Trace.{verdict_page};
ghost use Rattle.trace_c.specs.Calls as Spec;

use refusal::{MOST_LINE_WORDS, Refusal};
use trace::Verdict;

// The kind, the step and the field.
fn put_verdict(b: &mut [u8], found: Verdict)
    requires { SixBytes b.old }
    ensures { b.new ≡ Spec.verdict_words (verdict_page found) }
{
    match found {
        Verdict::Accepted => answer::put(b, 0, 0, 0),
        Verdict::Wrong(step, field, _) => answer::put(b, 1, step, field),
        Verdict::Missing(step) => answer::put(b, 2, step, 0),
        Verdict::Extra(step) => answer::put(b, 2, step, 0),
    }
}

// Checks a trace of a job; or 21, the job's own refusal, or 29. The image, the map and the line words are the call's own.
#[unsafe(no_mangle)]
pub extern "C" fn wd16_check_trace(job: &[u8], trace: &[u8], verdict: &mut [u8]) -> u8
    ensures { told result verdict.new ≡ Spec.check_call job.now trace.now verdict.old }
{
    refusal::told(check_into(job, trace, verdict))
}

fn check_into(job: &[u8], trace: &[u8], verdict: &mut [u8]) -> Result<(), Refusal>
    ensures { told (why_of result) verdict.new ≡ Spec.check_call job.now trace.now verdict.old }
{
    answer::refusal(verdict)?;
    let mut image = [0u8; 65536];
    let mut map = [0u8; 256];
    let mut lines = [0u16; MOST_LINE_WORDS];
    let found = trace::check(job, trace, &mut image, &mut map, &mut lines)?;
    put_verdict(verdict, found);
    Ok(())
}
