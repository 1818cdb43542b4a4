// Random makings, calls and hops on fit chains and on spoilt ones: how many there were of each answer, and how many
// refusals did not leave all as it was.

ghost use Rattle.std.specs.Prelude.{◌≤◌};

use crate::bench::{Bench, Operation, Tried, say};
use crate::draw::{any_word, drawn};
use crate::operations::asked;
use crate::spoil::spoilt;
use crate::{draw, operations};
use chain_words::{CHANNELS, END, HELD};
use stage_mode::StageMode;
use std::io;
use test_operations::Lent;

const TURNS: u64 = 24000;

// The counts: 128 for each operation, at the number of its answer, and that of refusals that did not leave all as it was.
const COUNTS: usize = 385;

const CHANGED: usize = 384;

// ---- a turn

// What is asked, but now and then one word more or less of a store.
fn lent(seed: u64) -> Lent {
    let mut out = asked();
    let f = drawn(seed, 100) % 40;
    match f {
        0 => out.spans = 47,
        1 => out.spans = 49,
        2 => out.repairs = 11,
        3 => out.repairs = 13,
        4 => out.monitor = 31,
        5 => out.monitor = 33,
        _ => {}
    }
    out
}

// With a slice of what is held and up to 42 more, mostly.
fn call(b: Bench, seed: u64) -> Tried {
    let usual = b.state[HELD] % 22 + drawn(seed, 145) % 43;
    let length = any_word(seed, 143, usual) as usize;
    operations::call(b, draw::samples(seed), length, lent(seed))
}

// With as many channels as the settings have and not long after the last end, mostly.
fn hop(b: Bench, seed: u64) -> Tried {
    let count = any_word(seed, 153, b.state[CHANNELS]) as usize;
    let soon = std::num::wrapping_add_u64(b.state[END], drawn(seed, 155) % 8);
    let start = any_word(seed, 157, std::num::wrapping_sub_u64(soon, 1));
    operations::hop(b, draw::samples(seed), count, start, lent(seed))
}

fn turn(b: Bench, seed: u64, f: u64) -> Tried {
    match f {
        0 => operations::make(b, draw::configuration(seed), lent(seed)),
        1..=5 => call(b, seed),
        6..=8 => hop(b, seed),
        9..=12 => call(spoilt(b, seed), seed),
        _ => hop(spoilt(b, seed), seed),
    }
}

// ---- all turns

// Where the counts of an operation begin. No turn undoes, so undo has none.
fn first(op: Operation) -> usize
    ensures { result ≤ 384 }
{
    op as usize * 128
}

fn add(counts: &mut [u64; COUNTS], at: usize, n: u64) {
    let k = at % COUNTS;
    counts[k] = std::num::wrapping_add_u64(counts[k], n);
}

// The chain that a turn leaves: a spoilt one is put aside.
fn next(b: Bench, seed: u64, counts: &mut [u64; COUNTS]) -> Bench {
    let f = drawn(seed, 170) % 16;
    let t = turn(b, seed, f);
    add(counts, first(t.op) + (t.number % 128) as usize, 1);
    add(counts, CHANGED, !t.good as u64);
    if f < 9 {
        return t.bench;
    }
    b
}

fn run(counts: &mut [u64; COUNTS]) {
    let mut bench = operations::fresh(StageMode::Apply, 1.0);
    let mut seed: u64 = 88172645463325252;
    for _ in 0..TURNS {
        bench = next(bench, seed, counts);
        seed = draw::shifted(seed);
    }
}

// ---- the counts

// Printed here alone, in the words of this table.
fn print_operation(rt: &impl Print, op: Operation) -> io::Result<()> {
    match op {
        Operation::Making => rt.write_all(b"making "),
        Operation::Call => rt.write_all(b"call "),
        Operation::Hop => rt.write_all(b"hop "),
        Operation::Undo => rt.write_all(b"undo "),
    }
}

// A line for a number that was answered.
fn print_count(rt: &impl Print, op: Operation, number: u64, count: u64) -> io::Result<()> {
    if count == 0 {
        return Ok(());
    }
    print_operation(rt, op)?;
    say(rt, number)?;
    println!(rt; " {count}")
}

// The lines of an operation.
fn print(rt: &impl Print, op: Operation, counts: &[u64; COUNTS]) -> io::Result<()> {
    for (number, count) in counts.iter().skip(first(op)).take(128).enumerate() {
        print_count(rt, op, number as u64, *count)?;
    }
    Ok(())
}

pub fn show(rt: &impl Print) -> io::Result<()> {
    let mut counts = [0u64; COUNTS];
    run(&mut counts);
    print(rt, Operation::Making, &counts)?;
    print(rt, Operation::Call, &counts)?;
    print(rt, Operation::Hop, &counts)?;
    let changed = counts[CHANGED];
    println!(rt; "refused, and not all as it was: {changed}")
}
