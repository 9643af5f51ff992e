// The board: the lent image, the page map, and the log of what a step wrote over. The three are lent apart: as fields of one struct each
// access loads them again, and a step took 4 to 12 in a hundred instructions more, or up to 9 where each call out of line had a struct of its own.
#![tactic(auto)]

ghost use Rattle.std.specs.Prelude.{◌&&◌, ◌≡◌, ◌+◌, ◌*◌, ◌≤◌, ◌<◌, ◌%◌, ◌/◌, length, get_or, set};
ghost use Rattle.board.specs.Work as Work;
ghost use Rattle.board.specs.Work.{image_word, with_word};
ghost use Rattle.board.specs.Exec as Exec;
ghost use Rattle.board.specs.Exec.{beside, log_count, Lent, Board, Saw, Works, undone};

use wordbytes::{high, low};

// The address of an access that was not answered: nothing is fitted there, or it may not be written.
#[derive(Clone, Copy, Debug, PartialEq, Eq)]
pub struct Blank {
    pub at: u16,
}

fn wide(b: u8) -> u16
    ensures { (result ≡ b) × (result < 256) }
{
    b as u16
}

// Is the page of this address fitted, read-only or not?
fn fitted(map: &[u8], a: u16) -> bool
    requires { length map.now ≡ 256 }
    ensures { result ≡ Work.fitted map.now a }
{
    let page = (a / 256) as usize;
    map[page] != 0
}

// May this address be written?
fn writable(map: &[u8], a: u16) -> bool
    requires { length map.now ≡ 256 }
    ensures { result ≡ Work.writable map.now a }
{
    let page = (a / 256) as usize;
    map[page] == 1
}

// The word at an address.
fn word_at(image: &[u8], a: u16) -> u16
    requires { length image.now ≡ 65536 }
    ensures { result ≡ image_word image.now a }
{
    let at = (a / 2 * 2) as usize;
    wide(image[at]) + wide(image[at + 1]) * 256
}

// Puts a word at an address.
fn put_word(image: &mut [u8], a: u16, v: u16)
    requires { length image.old ≡ 65536 }
    ensures { image.new ≡ with_word image.old a v }
{
    let at = (a / 2 * 2) as usize;
    image[at] = low(v);
    image[at + 1] = high(v);
}

// A word and a byte each have their own access, whose lines differ; `read` and `write` are over both.
pub fn load(image: &[u8], map: &[u8], a: u16) -> Result<u16, Blank>
    requires { Lent map.now image.now }
    ensures { Saw map.now (Work.load a) image.now result }
{
    if fitted(map, a) {
        Ok(word_at(image, a))
    } else {
        Err(Blank { at: a })
    }
}

pub fn load_byte(image: &[u8], map: &[u8], a: u16) -> Result<u8, Blank>
    requires { Lent map.now image.now }
    ensures { Saw map.now (Work.load_byte a) image.now result }
{
    if fitted(map, a) {
        let at = a as usize;
        Ok(image[at])
    } else {
        Err(Blank { at: a })
    }
}

// The byte or the word at an address.
pub fn read(image: &[u8], map: &[u8], bytes: bool, a: u16) -> Result<u16, Blank>
    requires { Lent map.now image.now }
    ensures { Saw map.now (Work.read (Work.size_of bytes) a) image.now result }
{
    if bytes {
        let b = load_byte(image, map, a)?;
        return Ok(b as u16);
    }
    load(image, map, a)
}

// Notes the word at an address in the log.
fn note(image: &[u8], log: &mut [u16; 32], a: u16)
    requires { (length image.now ≡ 65536) × (log_count log.old < 15) }
    ensures { log.new ≡ Exec.note log.old a (image_word image.now a) }
{
    let n = log[0];
    let k = (n as usize) * 2;
    log[k + 1] = a;
    log[k + 2] = word_at(image, a);
    log[0] = n + 1;
}

// May this address be written, and is there room in the log?
fn may_write(map: &[u8], log: &[u16; 32], a: u16) -> bool
    requires { length map.now ≡ 256 }
    ensures { result ≡ Work.writable map.now a && Exec.log_room log.now }
{
    writable(map, a) && log[0] < 15
}

pub fn store(image: &mut [u8], map: &[u8], log: &mut [u16; 32], a: u16, v: u16) -> Result<(), Blank>
    requires { Board map.now (beside image.old log.old) }
    ensures { Works map.now (Work.store a v) image.old log.old result image.new log.new }
{
    if may_write(map, log, a) {
        note(image, log, a);
        put_word(image, a, v);
        Ok(())
    } else {
        Err(Blank { at: a })
    }
}

pub fn store_byte(
    image: &mut [u8],
    map: &[u8],
    log: &mut [u16; 32],
    a: u16,
    v: u16,
) -> Result<(), Blank>
    requires { Board map.now (beside image.old log.old) }
    ensures { Works map.now (Work.store_byte a v) image.old log.old result image.new log.new }
{
    if may_write(map, log, a) {
        note(image, log, a);
        let at = a as usize;
        image[at] = low(v);
        Ok(())
    } else {
        Err(Blank { at: a })
    }
}

pub fn write(
    image: &mut [u8],
    map: &[u8],
    log: &mut [u16; 32],
    bytes: bool,
    a: u16,
    v: u16,
) -> Result<(), Blank>
    requires { Board map.now (beside image.old log.old) }
    ensures { Works map.now (Work.write (Work.size_of bytes) a v) image.old log.old result image.new log.new }
{
    if bytes {
        return store_byte(image, map, log, a, v);
    }
    store(image, map, log, a, v)
}

// Empties the log.
pub fn clear(log: &mut [u16; 32])
    ensures { log.new ≡ set log.old 0 0 }
{
    log[0] = 0;
}

// Takes back what the log has, and empties it.
pub fn rollback(image: &mut [u8], log: &mut [u16; 32])
    requires { (length image.old ≡ 65536) × (log_count log.old ≤ 15) }
    ensures { (image.new ≡ undone (beside image.old log.old)) × (log.new ≡ set log.old 0 0) }
{
    let mut n = log[0] as usize;
    while 0 < n {
        n -= 1;
        let a = log[n * 2 + 1];
        let v = log[n * 2 + 2];
        put_word(image, a, v);
    }
    clear(log);
}
