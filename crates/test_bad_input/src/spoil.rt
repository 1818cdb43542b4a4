// A chain with some of its words replaced by odd ones.

use crate::bench::Bench;
use crate::draw::{drawn, odd_word};
use chain_words::{HELD, RECEIVED, RELEASED, RINGS, RUN, SEEN, STATE_WORDS, WINDOW};

// A place of a state's words: of the sizes, of what stands in front of the suppressor's arrays, of the log behind them, or
// any.
fn place(seed: u64) -> usize {
    let f = drawn(seed, 90) % 4;
    let w = drawn(seed, 91);
    match f {
        0 => w as usize % 4,
        1 => w as usize % WINDOW,
        2 => w as usize % (STATE_WORDS - RINGS) + RINGS,
        _ => w as usize % STATE_WORDS,
    }
}

fn spoil_one(state: &mut [u64; STATE_WORDS], seed: u64) {
    let at = place(seed) % STATE_WORDS;
    state[at] = odd_word(seed, 92);
}

// So many replacements.
fn spoil(state: &mut [u64; STATE_WORDS], seed: u64, times: u64) {
    for k in 0..times {
        spoil_one(state, drawn(seed, k % 1024 + 2000));
    }
}

// As if about 2^48 samples had been seen: fit, where a fit chain has seen 33 or more.
fn fill_up(state: &mut [u64; STATE_WORDS], seed: u64) {
    let seen = 0x1_0000_0000_0020 - drawn(seed, 93) % 64;
    state[RECEIVED] = seen;
    state[RUN] = 0;
    state[SEEN] = seen;
    state[RELEASED] = std::num::wrapping_sub_u64(seen, state[HELD]);
}

// How many words are replaced: none, a few or most.
fn times(f: u64) -> u64 {
    match f {
        0..=2 => 0,
        3..=10 => f % 3 + 1,
        _ => 200,
    }
}

// Some words replaced, or a chain that is nearly full.
fn change(state: &mut [u64; STATE_WORDS], seed: u64) {
    let f = drawn(seed, 160) % 14;
    match f {
        0..=11 => spoil(state, seed, times(f)),
        _ => fill_up(state, seed),
    }
}

// Another word of the span store or of the monitor's, or none.
fn with_odd_stores(b: Bench, seed: u64) -> Bench {
    let mut out = b;
    let f = drawn(seed, 110) % 4;
    let at = (drawn(seed, 111) % 32) as usize;
    let word = odd_word(seed, 112);
    match f {
        0 => out.spans[at] = word,
        1 => out.monitor[at] = ieee::from_bits64(word),
        _ => {}
    }
    out
}

pub fn spoilt(b: Bench, seed: u64) -> Bench {
    let mut state = b.state;
    change(&mut state, seed);
    test_operations::settle(&mut state);
    let mut out = with_odd_stores(b, seed);
    out.state = state;
    out
}
