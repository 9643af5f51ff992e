// The op code on bytes alone: SWAD.
ghost use Rattle.std.specs.Prelude.{◌≡◌};
ghost use Rattle.unary.specs.Ops.{swad_of};

use wordmath::Done;
use wordmath::result::done;
use wordmath::width::Width;

pub(crate) fn swad(d: u8) -> Done
    ensures { result ≡ swad_of d }
{
    let r = d % 16 * 16 + d / 16;
    done(r, r.is_negative(), false)
}
