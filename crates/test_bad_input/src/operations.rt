// Making, a call, a hop and repair undo.

use crate::bench::{Bench, Operation, Tried, ended, same_behind};
use chain_config::ConditioningConfig;
use chain_words::STATE_WORDS;
use impulse_pause::PauseEdition;
use stage_mode::StageMode;
use test_operations::{ACCEPTED, Lent, Told, plain, told_hop};

// What a chain of 2 spans, 2 repairs and 8 channels asks.
pub fn asked() -> Lent {
    Lent {
        spans: 48,
        repairs: 12,
        monitor: 32,
    }
}

// ---- making

// The chain stays where none is made.
pub fn make(b: Bench, config: ConditioningConfig, lent: Lent) -> Tried {
    let mut state = b.state;
    let mut spans = b.spans;
    let mut repairs = b.repairs;
    let mut monitor = b.monitor;
    let number = test_operations::make(
        config,
        &mut state,
        &mut spans,
        &mut repairs,
        &mut monitor,
        lent,
    );
    let left = Bench {
        state,
        spans,
        repairs,
        monitor,
    };
    ended(Operation::Making, plain(number), b, left)
}

// Stores of zeros, and no state yet.
fn empty() -> Bench {
    Bench {
        state: [0u64; STATE_WORDS],
        spans: [0u64; 49],
        repairs: [0u64; 13],
        monitor: [0.0f64; 33],
    }
}

// A chain of this impulse mode and rate, with DC applying, IQ observing, two spans, two repairs and 8 channels.
pub fn fresh(impulse: StageMode, fs: f64) -> Bench {
    let config = ConditioningConfig {
        impulse,
        dc: StageMode::Apply,
        iq: StageMode::Observe,
        fs,
        centre: 100.0,
        n: 8,
        calibration: None,
        spans: 2,
        repairs: 2,
        edition: PauseEdition::First,
    };
    let made = make(empty(), config, asked());
    made.bench
}

// ---- a call

// From where on the slice has to be as it was.
fn kept_from(told: Told) -> usize {
    if told.number == ACCEPTED {
        return told.value as usize;
    }
    0
}

// With so many of the samples.
pub fn call(b: Bench, given: [u64; 64], length: usize, lent: Lent) -> Tried {
    let mut state = b.state;
    let mut spans = b.spans;
    let mut repairs = b.repairs;
    let monitor = b.monitor;
    let mut samples = given;
    let told = test_operations::call(
        &mut state,
        &mut samples,
        length,
        &mut spans,
        &mut repairs,
        lent,
    );
    let left = Bench {
        state,
        spans,
        repairs,
        monitor,
    };
    let mut out = ended(Operation::Call, told, b, left);
    out.good = out.good & same_behind(&given, &samples, kept_from(told));
    out
}

// ---- a hop

// With so many of the channels.
pub fn hop(b: Bench, x: [u64; 64], count: usize, start: u64, lent: Lent) -> Tried {
    let mut state = b.state;
    let mut spans = b.spans;
    let repairs = b.repairs;
    let mut monitor = b.monitor;
    let answer = test_operations::hop(&mut state, &x, count, start, &mut spans, &mut monitor, lent);
    let left = Bench {
        state,
        spans,
        repairs,
        monitor,
    };
    ended(Operation::Hop, told_hop(answer), b, left)
}

// ---- repair undo

// Over these samples, numbered from 0.
pub fn undo(b: Bench, given: [u64; 64], lent: Lent) -> Tried {
    let state = b.state;
    let repairs = b.repairs;
    let mut samples = given;
    let told = test_operations::undo_repairs(&state, &repairs, lent.repairs, &mut samples, 0);
    let mut out = ended(Operation::Undo, told, b, b);
    out.good = (told.number == ACCEPTED) | same_behind(&given, &samples, 0);
    out
}
