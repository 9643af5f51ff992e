// Op codes on words alone: IW2, SXT, ADC, SBC and SWAB.
ghost use Rattle.std.specs.Prelude.{◌≡◌};
ghost use Rattle.unary.specs.Ops.{iw2_of, sxt_of, adc_of, sbc_of, swab_of};

use wordmath::result::done;
use wordmath::width::Width;
use wordmath::{Done, Flags};

pub fn iw2(d: u16) -> Done
    ensures { result ≡ iw2_of d }
{
    let t = u32::from(d) + 2;
    let r = (t % 0x1_0000) as u16;
    done(r, (r == 0x8000) | (r == 0x8001), 0x1_0000 <= t)
}

pub fn sxt(f: Flags) -> Done
    ensures { result ≡ sxt_of f }
{
    Done {
        value: u16::from(f.n) * 0xffff,
        flags: f,
    }
}

pub fn adc(d: u16, f: Flags) -> Done
    ensures { result ≡ adc_of d f }
{
    let t = u32::from(d) + u32::from(f.c);
    let r = (t % 0x1_0000) as u16;
    let n = r.is_negative();
    let c = 0x1_0000 <= t;
    done(r, n != c, c)
}

pub fn sbc(d: u16, f: Flags) -> Done
    ensures { result ≡ sbc_of d f }
{
    let r = ((u32::from(d) + 0x1_0000 - u32::from(f.c)) % 0x1_0000) as u16;
    let n = r.is_negative();
    let c = d < u16::from(f.c);
    done(r, n != c, c)
}

pub(crate) fn swab(d: u16, f: Flags) -> Done
    ensures { result ≡ swab_of d f }
{
    let r = d % 256 * 256 + d / 256;
    Done {
        value: r,
        flags: Flags {
            n: (r >> 7) % 2 == 1,
            z: r % 256 == 0,
            v: false,
            c: f.c,
        },
    }
}
