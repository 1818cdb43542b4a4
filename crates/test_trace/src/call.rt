// A call: places in front, then new samples.

use crate::making::lent;
use crate::words::{show_first, shown, word, write_front, write_words};
use crate::{Head, REPAIR_WORDS, SLICE_WORDS, SPAN_WORDS};
use chain_words::{CLAMPED, HELD, RECEIVED, RELEASED, RUN, SEEN, STATE_WORDS};
use std::io;
use test_operations::{Told, at_most, part};

// How many places stand in front: as many as are held, where the word is all ones.
fn places(w: u64, held: usize) -> usize {
    if w == 0xffff_ffff_ffff_ffff {
        return at_most(held, 512);
    }
    at_most(w as usize, 512)
}

// Word k of a slice: a NaN in each of the places in front, then the words.
fn laid(front: usize, input: &[u64], k: usize) -> u64 {
    if k < front {
        return std::num::wrapping_add_u64(0xffff_ffff_7fc0_0000, k as u64);
    }
    word(input, k - front)
}

// The places in front, and then the words.
pub fn fill(slice: &mut [u64], front: usize, input: &[u64]) {
    for (k, x) in slice.iter_mut().enumerate() {
        *x = laid(front, input, k);
    }
}

// A slice of the places in front and the words; how long it is.
fn lay_out(slice: &mut [u64], front: usize, input: &[u64]) -> usize {
    let length = part(slice, std::num::wrapping_add_usize(front, input.len()));
    fill(&mut slice[..length], front, input);
    length
}

// The state that a call is handed: as it is, or as if it had seen so many samples.
fn hand(state: &mut [u64; STATE_WORDS], seen: u64) {
    if seen == 0 {
        return;
    }
    state[RECEIVED] = seen;
    state[RUN] = 0;
    state[SEEN] = seen;
    state[RELEASED] = std::num::wrapping_sub_u64(seen, state[HELD]);
}

// The answer, how much was seen, released and held, how long the slice is, and how many words are behind.
fn front(told: Told, state: &[u64; STATE_WORDS], n: usize, how: u64) -> [u64; 8] {
    [
        3,
        told.number,
        told.value,
        state[SEEN],
        state[RELEASED],
        state[HELD],
        n as u64,
        std::num::wrapping_add_u64(shown(n, how), 1),
    ]
}

// The slice, and behind it the count of clamped DC updates.
fn write_call(
    rt: &impl Print,
    told: Told,
    state: &[u64; STATE_WORDS],
    slice: &[u64],
    length: usize,
    how: u64,
) -> io::Result<()> {
    let n = part(slice, length);
    write_front(rt, front(told, state, n, how))?;
    show_first(rt, slice, n, how)?;
    write_words(rt, &[state[CLAMPED]])
}

// The state before stays where another one was handed over.
pub fn call(
    rt: &impl Print,
    state: &mut [u64; STATE_WORDS],
    head: Head,
    input: &[u64],
    spans: &mut [u64; SPAN_WORDS],
    repairs: &mut [u64; REPAIR_WORDS],
) -> io::Result<()> {
    let mut handed = *state;
    let mut slice = [0u64; SLICE_WORDS];
    hand(&mut handed, head.d);
    let front = places(head.c, handed[HELD] as usize);
    let length = lay_out(&mut slice, front, input);
    let told = test_operations::call(
        &mut handed,
        &mut slice,
        length,
        spans,
        repairs,
        lent(head.a, head.b, 0),
    );
    write_call(rt, told, &handed, &slice, length, head.how)?;
    if head.d == 0 {
        *state = handed;
    }
    Ok(())
}
