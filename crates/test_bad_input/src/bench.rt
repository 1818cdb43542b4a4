// A chain as words with small stores of its own, how an operation on it ended, and whether it left what it must.

use chain_words::STATE_WORDS;
use std::io;
use test_operations::{ACCEPTED, NOTHING, REPORTED, Told};

// A state's words, and stores one word longer than those of 2 spans, 2 repairs and 8 channels.
#[derive(Clone, Copy)]
pub struct Bench {
    pub state: [u64; STATE_WORDS],
    pub spans: [u64; 49],
    pub repairs: [u64; 13],
    pub monitor: [f64; 33],
}

// Which operation it was, the answer as two numbers, what was left, and whether that is as it must be.
#[derive(Clone, Copy)]
pub struct Tried {
    pub op: Operation,
    pub number: u64,
    pub value: u64,
    pub bench: Bench,
    pub good: bool,
}

#[derive(Clone, Copy, Debug, PartialEq, Eq)]
pub enum Operation {
    Making,
    Call,
    Hop,
    Undo,
}

// ---- whether all is as it was

// Whether the words from `from` on are the same.
pub fn same_behind(a: &[u64], b: &[u64], from: usize) -> bool {
    a.len() == b.len() && a.iter().zip(b).skip(from).all(|(x, y)| x == y)
}

fn same_floats(a: &[f64; 33], b: &[f64; 33]) -> bool {
    a.iter()
        .zip(b)
        .all(|(x, y)| ieee::to_bits64(*x) == ieee::to_bits64(*y))
}

fn is_same(a: Bench, b: Bench) -> bool {
    same_behind(&a.state, &b.state, 0)
        & same_behind(&a.spans, &b.spans, 0)
        & same_behind(&a.repairs, &b.repairs, 0)
        & same_floats(&a.monitor, &b.monitor)
}

fn is_accepted(number: u64) -> bool {
    (number == ACCEPTED) | (number == REPORTED)
}

// An operation with this answer: it must leave all as it was, where it was not accepted.
pub fn ended(op: Operation, told: Told, given: Bench, left: Bench) -> Tried {
    Tried {
        op,
        number: told.number,
        value: told.value,
        bench: left,
        good: is_accepted(told.number) | is_same(given, left),
    }
}

// ---- the answer in words

pub fn say(rt: &impl Print, number: u64) -> io::Result<()> {
    match number {
        ACCEPTED => rt.write_all(b"accepted"),
        NOTHING => rt.write_all(b"nothing"),
        REPORTED => rt.write_all(b"report"),
        _ => print!(rt; "{number}"),
    }
}
