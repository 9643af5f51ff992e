// The job reader for C, over plain lent bytes and words. c/hitchbriar.h has the answer's layout.
#![tactic(auto)]

ghost use Rattle.std.specs.Prelude.{◌≡◌};
ghost use Rattle.refusal.specs.Answer.{why_of};
ghost use Rattle.refusal.specs.Page.{told};
ghost use Rattle.job_c.specs.Calls as Spec;

use refusal::Refusal;

// Reads a job into the image, the map and the line words; or 21, 1, 2, 4 or the job's own refusal.
#[unsafe(no_mangle)]
pub extern "C" fn wd16_read_job(
    job: &[u8],
    image: &mut [u8],
    map: &mut [u8],
    lines: &mut [u16],
    answer: &mut [u8],
) -> u8
    ensures { told result (image.new, map.new, lines.new, answer.new) ≡ Spec.read_call job.now image.old map.old lines.old answer.old }
{
    refusal::told(read_into(job, image, map, lines, answer))
}

fn read_into(
    job: &[u8],
    image: &mut [u8],
    map: &mut [u8],
    lines: &mut [u16],
    answer: &mut [u8],
) -> Result<(), Refusal>
    ensures { told (why_of result) (image.new, map.new, lines.new, answer.new) ≡ Spec.read_call job.now image.old map.old lines.old answer.old }
{
    answer::refusal(answer)?;
    let count = job::read_job(job, image, map, lines)?;
    answer::put(answer, count, 0, 0);
    Ok(())
}
