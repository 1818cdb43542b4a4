// Runs a list of operations from standard input and writes each answer, with slices, states and stores,
// to standard output. Both are words; oracle/src/trace/mod.rs has their order.
#![tactic(auto)]

mod call;
mod hop;
mod making;
mod shown;
mod undoing;
mod words;

use chain_words::STATE_WORDS;
use std::io;
use test_operations::{part, plain};
use words::{answer_plain, read_words};

// The words behind an operation; a call's slice; the stores, each longer than the longest that is lent.
const INPUT_WORDS: usize = 4096;

pub const SLICE_WORDS: usize = 4608;

pub const SPAN_WORDS: usize = 6148;

pub const REPAIR_WORDS: usize = 24580;

pub const MONITOR_WORDS: usize = 8196;

// The words in front of an operation.
#[derive(Clone, Copy)]
pub struct Head {
    pub op: u64,
    pub how: u64,
    pub a: u64,
    pub b: u64,
    pub c: u64,
    pub d: u64,
    pub len: u64,
}

// None where the input ends.
fn read_head(rt: &impl Input) -> io::Result<Option<Head>> {
    let mut w = [0u64; 8];
    if !read_words(rt, &mut w)? {
        return Ok(None);
    }
    Ok(Some(Head {
        op: w[0],
        how: w[1],
        a: w[2],
        b: w[3],
        c: w[4],
        d: w[5],
        len: w[7],
    }))
}

// ---- a word of a store

fn put(words: &mut [u64], place: usize, w: u64) {
    if place < words.len() {
        words[place] = w;
    }
}

fn put_float(words: &mut [f64], place: usize, w: u64) {
    if place < words.len() {
        words[place] = ieee::from_bits64(w);
    }
}

// A word of a store.
fn write(
    rt: &impl Print,
    head: Head,
    spans: &mut [u64; SPAN_WORDS],
    repairs: &mut [u64; REPAIR_WORDS],
    monitor: &mut [f64; MONITOR_WORDS],
) -> io::Result<()> {
    let store = head.a;
    let place = head.b as usize;
    answer_plain(rt, 14, plain(0), 0, 0)?;
    match store {
        0 => put(spans, place, head.c),
        1 => put(repairs, place, head.c),
        2 => put_float(monitor, place, head.c),
        _ => {}
    }
    Ok(())
}

// ---- all

// Reads the words behind an operation's front; whether they were there.
fn read_input(rt: &impl Input, head: Head, input: &mut [u64]) -> io::Result<bool> {
    let n = part(input, head.len as usize);
    if (n as u64) < head.len {
        return Ok(false);
    }
    read_words(rt, &mut input[..n])
}

fn answer(
    rt: &impl Print,
    state: &mut [u64; STATE_WORDS],
    head: Head,
    input: &mut [u64],
    spans: &mut [u64; SPAN_WORDS],
    repairs: &mut [u64; REPAIR_WORDS],
    monitor: &mut [f64; MONITOR_WORDS],
) -> io::Result<()> {
    let op = head.op;
    match op {
        1 => making::make(rt, state, head, input, spans, repairs, monitor),
        2 => making::config(rt, input),
        3 => call::call(rt, state, head, input, spans, repairs),
        4 => hop::hop(rt, state, head, input, spans, monitor),
        5 => shown::log(rt, state),
        6 => shown::state(rt, state),
        7 => shown::stores(rt, head, spans, repairs, monitor),
        8 => shown::span(rt, state, head, spans),
        9 => undoing::repairs(rt, state, head, input, repairs),
        10 => undoing::level(rt, head, input),
        11 => undoing::correction(rt, head, input),
        12 => undoing::guard(rt, head, input),
        13 => undoing::validate(rt, head),
        14 => write(rt, head, spans, repairs, monitor),
        _ => Ok(()),
    }
}

// One operation; whether it was there, with its words.
fn turn(
    rt: &(impl Input + Print),
    state: &mut [u64; STATE_WORDS],
    spans: &mut [u64; SPAN_WORDS],
    repairs: &mut [u64; REPAIR_WORDS],
    monitor: &mut [f64; MONITOR_WORDS],
) -> io::Result<bool> {
    let mut input = [0u64; INPUT_WORDS];
    let Some(head) = read_head(rt)? else {
        return Ok(false);
    };
    if !read_input(rt, head, &mut input)? {
        return Ok(false);
    }
    let n = part(&input, head.len as usize);
    answer(rt, state, head, &mut input[..n], spans, repairs, monitor)?;
    Ok(true)
}

fn main(rt: HostRuntime) -> io::Result<()> {
    let mut state = making::first();
    let mut spans = [0u64; SPAN_WORDS];
    let mut repairs = [0u64; REPAIR_WORDS];
    let mut monitor = [0.0f64; MONITOR_WORDS];
    // the input ends long before
    for _ in 0..u64::MAX {
        if !turn(&rt, &mut state, &mut spans, &mut repairs, &mut monitor)? {
            break;
        }
    }
    Ok(())
}
