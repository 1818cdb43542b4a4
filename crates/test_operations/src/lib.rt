// The chain's operations on a state's words, over as much of each store as is lent, with answers as two numbers: for the
// programs that show a state, change one, or compare two to the last bit.
#![tactic(auto)]

ghost use Rattle.std.specs.Prelude.{◌≡◌, ◌≤◌, length, take};

use chain_config::ConditioningConfig;
use chain_words::{STATE_WORDS, read_state, write_state};
use iq_monitor::Heard;
use refusal::Refusal;

// ---- an answer as two numbers

// Document 01's number of a refusal, or one of the three below, and how many samples or which place it names.
#[derive(Clone, Copy)]
pub struct Told {
    pub number: u64,
    pub value: u64,
}

// A state was made, samples are ready, a hop was added with no report, or the originals are back.
pub const ACCEPTED: u64 = 0;

// There was nothing to do.
pub const NOTHING: u64 = 100;

// A hop was added, and there is a report.
pub const REPORTED: u64 = 101;

// An answer that names nothing.
pub fn plain(number: u64) -> Told {
    Told { number, value: 0 }
}

fn told_call(answer: Result<usize, Refusal>) -> Told {
    let number = refusal::number(&answer);
    match answer {
        Ok(ready) => Told {
            number,
            value: ready as u64,
        },
        Err(Refusal::OutOfRange(place)) => Told {
            number,
            value: place as u64,
        },
        Err(_) => plain(number),
    }
}

pub fn told_hop(answer: Result<Heard, Refusal>) -> Told {
    let number = refusal::number(&answer);
    match answer {
        Ok(Heard::Nothing) => plain(NOTHING),
        Ok(Heard::Report(_)) => plain(REPORTED),
        Err(Refusal::OutOfRange(place)) => Told {
            number,
            value: place as u64,
        },
        _ => plain(number),
    }
}

// ---- parts of stores

// How much of each store is lent; all of it if there is less.
#[derive(Clone, Copy)]
pub struct Lent {
    pub spans: usize,
    pub repairs: usize,
    pub monitor: usize,
}

// The number, or the most if it is more.
pub fn at_most(n: usize, most: usize) -> usize
    ensures { (result ≤ n) × (result ≤ most) }
{
    if most < n {
        return most;
    }
    n
}

// So many of the words, or all if there are fewer.
pub fn part<T>(words: &[T], n: usize) -> usize
    ensures { (result ≤ length words.now) × (result ≡ length (take result words.now)) }
{
    at_most(n, words.len())
}

// ---- operations on a state's words

// The words as `write_state` gives them: 0 behind what isn't there.
pub fn settle(words: &mut [u64; STATE_WORDS]) {
    let state = read_state(words);
    write_state(state, words);
}

// A new state over the words, where one is made, and the number of the answer.
pub fn make(
    config: ConditioningConfig,
    words: &mut [u64; STATE_WORDS],
    spans: &mut [u64],
    repairs: &mut [u64],
    monitor: &mut [f64],
    lent: Lent,
) -> u64 {
    let s = part(spans, lent.spans);
    let r = part(repairs, lent.repairs);
    let m = part(monitor, lent.monitor);
    let made = chain_make::with_geometry(
        config,
        &mut spans[..s],
        &mut repairs[..r],
        &mut monitor[..m],
    );
    match made {
        Ok(Some(state)) => {
            write_state(state, words);
            ACCEPTED
        }
        Ok(None) => NOTHING,
        Err(refusal) => refusal.number(),
    }
}

// A call with so many of the samples.
pub fn call(
    words: &mut [u64; STATE_WORDS],
    samples: &mut [u64],
    length: usize,
    spans: &mut [u64],
    repairs: &mut [u64],
    lent: Lent,
) -> Told {
    let n = part(samples, length);
    let s = part(spans, lent.spans);
    let r = part(repairs, lent.repairs);
    let mut state = read_state(words);
    let answer = chain_call::condition(
        &mut state,
        &mut samples[..n],
        &mut spans[..s],
        &mut repairs[..r],
    );
    write_state(state, words);
    told_call(answer)
}

// A hop with so many of the channels.
pub fn hop(
    words: &mut [u64; STATE_WORDS],
    x: &[u64],
    channels: usize,
    start: u64,
    spans: &mut [u64],
    monitor: &mut [f64],
    lent: Lent,
) -> Result<Heard, Refusal> {
    let n = part(x, channels);
    let s = part(spans, lent.spans);
    let m = part(monitor, lent.monitor);
    let mut state = read_state(words);
    let answer = chain_hop::observe_hop(
        &mut state,
        &x[..n],
        start,
        &mut spans[..s],
        &mut monitor[..m],
    );
    write_state(state, words);
    answer
}

// Repair undo with so many words of the repair store. The first of the samples has this number.
pub fn undo_repairs(
    words: &[u64; STATE_WORDS],
    repairs: &[u64],
    length: usize,
    samples: &mut [u64],
    first: u64,
) -> Told {
    let r = part(repairs, length);
    let answer = chain_undo::revert_repairs(&read_state(words), &repairs[..r], samples, first);
    plain(refusal::number(&answer))
}
