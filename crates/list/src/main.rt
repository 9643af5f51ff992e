// Reads two addresses and a job on standard input, and prints the listing of the stretch of the job's image from the first to the
// last; a refusal is printed as bench's. Where the answer could not be written standard error says so.
#![tactic(auto)]

ghost use Rattle.std.specs.Prelude.{◌≡◌, length};
ghost use Rattle.listjob.specs.Stretch.{stretch_room};

use job::READ_OF_JOB;
use listjob::STRETCH_ROOM;
use printing::{first, put_refused, read_full, say_unless};
use refusal::MOST_LINE_WORDS;
use std::io;
use std::io::Print;

// Room for the longest listing.
fn whole_listing() -> [u8; STRETCH_ROOM]
    ensures { stretch_room ≡ length result }
{
    [0; STRETCH_ROOM]
}

fn list_input(out: &impl Print, input: &[u8]) -> io::Result<()> {
    let mut image = [0u8; 65536];
    let mut map = [0u8; 256];
    let mut lines = [0u16; MOST_LINE_WORDS];
    let mut text = whole_listing();
    match listjob::list_job(&mut text, input, &mut image, &mut map, &mut lines) {
        Ok(n) => out.write_all(first(&text, n)?),
        Err(why) => put_refused(out, u8::from(why)),
    }
}

// Two addresses have four bytes.
fn main(rt: HostRuntime) {
    let mut input = [0u8; 4 + READ_OF_JOB];
    let got = read_full(&mut rt.stdin(), &mut input);
    let written = list_input(&rt.stdout(), &input[..got]);
    say_unless(&rt.stderr(), written, b"list");
}
