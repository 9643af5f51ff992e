// Format 6: immediates and shifts of registers; format 5 beside it: the op codes without an operand in memory.
#![tactic(auto)]

ghost use Rattle.std.specs.Prelude.{◌≡◌};
ghost use Rattle.formats5to6.specs.Format6 as Spec;

use opcodes::fields::{count, format6_code, register};
use state::State;
use wordmath::{Done, Pair};

pub mod format5;

// ADDI, SUBI, BICI, MOVI.
fn immediate(s: State, op: u16) -> State
    ensures { result ≡ Spec.immediate s op }
{
    let k = register(op);
    let n = count(op);
    let kind = opcodes::immediate_at(format6_code(op));
    let done = arith::immediate::immediate(kind, n, s.reg(k), s.flags);
    s.with_done(k, done)
}

// SSRR, SSLR, SSRA, SSLA.
fn single(s: State, op: u16) -> State
    ensures { result ≡ Spec.single s op }
{
    let k = register(op);
    let n = count(op);
    let way = opcodes::way_at(format6_code(op));
    let done = shift::counted::single(way, n, s.reg(k), s.flags);
    s.with_done(k, done)
}

// SDRR, SDLR, SDRA, SDLA: on REG+1:REG.
fn double(s: State, op: u16) -> State
    ensures { result ≡ Spec.double s op }
{
    let k = register(op);
    let n = count(op);
    let way = opcodes::way_at(format6_code(op));
    let pair = shift::counted::double(way, n, s.reg(k), s.reg(state::next(k)), s.flags);
    s.with_pair(k, pair)
}

pub fn format6(s: State, op: u16) -> State
    ensures { result ≡ Spec.format6 s op }
{
    if op < 0x8000 {
        return immediate(s, op);
    }
    if op < 0x8a00 {
        return single(s, op);
    }
    double(s, op)
}
