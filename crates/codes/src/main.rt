// Encodings and rebuilds of groups over the whole range of N, K, U and missing sets, agreeing and disagreeing ones, and every refusal;
// seeded, and compared with what `oracle/` prints.
#![tactic(auto)]

ghost use Rattle.std.specs.Prelude.{◌≤◌};
ghost use Rattle.group_trial.specs.Bounds.{Bounded};

use group_trial::drawn::{Group, Units};
use group_trial::{drawn, every};
use numbers::Layout;
use trial::{checksum, newline, number, text};

fn print_units(rt: &impl Print, l: Units) {
    number(rt, l.list().len() as u64);
    for &unit in l.list() {
        number(rt, unit);
    }
}

// Encodes the first len bytes of the buffer, and prints the answer.
fn encode(rt: &impl Print, y: Layout, buffer: &mut [u8], len: usize) {
    if buffer.len() < len {
        return;
    }
    let answer = group::encode(y, &mut buffer[..len]);
    text(rt, b"encode");
    number(rt, lists::answer_number(answer));
    number(rt, checksum(&buffer[..len]));
    newline(rt);
}

// Rebuilds the first len bytes of the buffer, and prints the list and the answer.
fn rebuild(rt: &impl Print, y: Layout, l: Units, buffer: &mut [u8], len: usize) {
    if buffer.len() < len {
        return;
    }
    let answer = group::rebuild(y, l.list(), &mut buffer[..len]);
    print_units(rt, l);
    number(rt, lists::answer_number(answer));
    number(rt, checksum(&buffer[..len]));
    newline(rt);
}

// Scribbles over unit v of the buffer.
fn scribble_unit(seed: &mut u64, v: u64, unit: u64, buffer: &mut [u8])
    requires { unit ≤ 4096 }
{
    if 18 < v {
        return;
    }
    let start = drawn::times(v, unit) as usize;
    let end = drawn::times(v + 1, unit) as usize;
    if buffer.len() < end || end < start {
        return;
    }
    trial::fill(seed, &mut buffer[start..end]);
}

// Scribbles over the units of the list, one after another.
fn scribble(seed: &mut u64, l: Units, unit: u64, buffer: &mut [u8])
    requires { unit ≤ 4096 }
{
    for &v in l.list() {
        scribble_unit(seed, v, unit, buffer);
    }
}

// A call that is refused, of the kind that goes with the number of the group.
fn refused(rt: &impl Print, i: u64, g: Group, buffer: &mut [u8], e: usize)
    requires { Bounded g × (e ≤ 77824) }
{
    let kind = i % 10;
    let y = drawn::refused_layout(g, kind);
    let len = drawn::refused_length(e, kind);
    text(rt, b"refused");
    number(rt, kind);
    rebuild(rt, y, drawn::refused_units(g, kind), buffer, len);
    encode(rt, y, buffer, len);
}

fn announce(rt: &impl Print, i: u64, g: Group) {
    text(rt, b"group");
    number(rt, i);
    number(rt, g.n);
    number(rt, g.k);
    number(rt, g.u);
    newline(rt);
}

// A group that was encoded, with some units scribbled over, rebuilt.
fn agreeing(rt: &impl Print, seed: &mut u64, g: Group, buffer: &mut [u8], e: usize)
    requires { Bounded g }
{
    if buffer.len() < e {
        return;
    }
    let y = drawn::layout_of(g);
    trial::fill(seed, &mut buffer[..e]);
    encode(rt, y, buffer, e);
    let l = drawn::units_by(seed, g);
    scribble(seed, l, g.u, buffer);
    text(rt, b"agreeing");
    rebuild(rt, y, l, buffer, e);
}

// A group of any bytes, rebuilt.
fn disagreeing(rt: &impl Print, seed: &mut u64, g: Group, buffer: &mut [u8], e: usize)
    requires { Bounded g }
{
    if buffer.len() < e {
        return;
    }
    let y = drawn::layout_of(g);
    trial::fill(seed, &mut buffer[..e]);
    let l = drawn::units_by(seed, g);
    text(rt, b"disagreeing");
    rebuild(rt, y, l, buffer, e);
}

fn group_number(rt: &impl Print, i: u64, seed: &mut u64, buffer: &mut [u8]) {
    let g = drawn::group_by(seed);
    let e = drawn::times(g.n + g.k, g.u) as usize;
    announce(rt, i, g);
    agreeing(rt, seed, g, buffer, e);
    disagreeing(rt, seed, g, buffer, e);
    refused(rt, i, g, buffer, e);
}

fn groups(rt: &impl Print, seed: &mut u64, buffer: &mut [u8]) {
    for i in 0..320 {
        group_number(rt, i, seed, buffer);
    }
}

fn main(rt: HostRuntime) {
    let mut seed: u64 = 30260303;
    let mut buffer = [0u8; 65536];
    groups(&rt, &mut seed, &mut buffer);
    every::sizes(&rt, &mut buffer);
}
