// Runs the vectors of a table on standard input, a line each, and says of each whether it came out as the table wants.
//
// A line is NAME: op code words | sets | line words | wants. The op code words stand from 0100 on. A set or a want is
// PLACE=VALUE. A place is R0 to R5, SP, PC, NZVC, I2, or the even address of a word, not in two digits. Numbers are hex. There
// are a line word and a want at least, and one space stands between two words, a bar being one. A line that is empty or begins
// with '#' is no vector. The processor is stepped through the functions for C, whose layout of a state is in c/hitchbriar.h.
#![tactic(auto)]

use printing::read_full;
use std::io;
use std::io::Print;
use text::parted;
use vector::tried;
use wordbytes::byte_at;

mod place;
mod text;
mod vector;

fn is_vector(line: &[u8]) -> bool {
    !matches!(byte_at(line, 0), 0 | b'#')
}

// Tries a vector and says what became of it; whether it is right.
fn told(out: &impl Print, line: &[u8]) -> bool {
    let right = tried(out, line);
    let (name, _) = parted(line, b':');
    let _ = out.write_all(name);
    let verdict = if right { "ok" } else { "FAILED" };
    let _ = println!(out; " {verdict}");
    right
}

// The last line; FAILED stands before it unless all vectors of the whole table are right.
fn print_totals(out: &impl Print, all: u64, right: u64, whole: bool) -> io::Result<()> {
    if !whole {
        println!(out; "the table is too long")?;
    }
    if !whole | (all == 0) | (right != all) {
        print!(out; "FAILED: ")?;
    }
    println!(out; "{right} of {all} ok")
}

// Tries all vectors of a table.
fn run_table(out: &impl Print, table: &[u8], whole: bool) {
    let mut all: u64 = 0;
    let mut right: u64 = 0;
    for line in table.split(|b| *b == b'\n') {
        if is_vector(line) {
            all = all.wrapping_add(1);
            right = right.wrapping_add(u64::from(told(out, line)));
        }
    }
    let _ = print_totals(out, all, right, whole);
}

// A table that fills the input may go on behind it.
fn main(rt: HostRuntime) {
    let mut input = [0u8; 16384];
    let got = read_full(&mut rt.stdin(), &mut input);
    run_table(&rt.stdout(), &input[..got], got < 16384);
}
