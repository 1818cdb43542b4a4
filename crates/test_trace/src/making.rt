// Making a chain, and what a configuration says of itself.

use crate::words::{answer_plain, float, word, write_front, write_words};
use crate::{Head, MONITOR_WORDS, REPAIR_WORDS, SPAN_WORDS};
use chain_config::ConditioningConfig;
use chain_words::{STATE_WORDS, mode_at, mode_word};
use impulse_pause::PauseEdition;
use iq::IqCalibration;
use stage_mode::StageMode;
use std::io;
use test_operations::{Lent, plain};

// ---- a configuration of thirteen words

fn calibration(w: &[u64]) -> Option<IqCalibration> {
    if word(w, 6) == 0 {
        return None;
    }
    Some(IqCalibration {
        gain: float(w, 7),
        phase: float(w, 8),
        centre: float(w, 9),
    })
}

fn configuration(w: &[u64]) -> ConditioningConfig {
    ConditioningConfig {
        impulse: mode_at(word(w, 0)),
        dc: mode_at(word(w, 1)),
        iq: mode_at(word(w, 2)),
        fs: float(w, 3),
        centre: float(w, 4),
        n: word(w, 5) as usize,
        calibration: calibration(w),
        spans: word(w, 10) as usize,
        repairs: word(w, 11) as usize,
        edition: PauseEdition::from(word(w, 12)),
    }
}

fn calibration_words(c: Option<IqCalibration>) -> [u64; 4] {
    let Some(x) = c else {
        return [0, 0, 0, 0];
    };
    [
        1,
        ieee::to_bits64(x.gain),
        ieee::to_bits64(x.phase),
        ieee::to_bits64(x.centre),
    ]
}

fn write_configuration(rt: &impl Print, c: ConditioningConfig) -> io::Result<()> {
    let impulse = c.impulse;
    let dc = c.dc;
    let iq = c.iq;
    let calibration = c.calibration;
    let edition = c.edition;
    let front = [
        mode_word(impulse),
        mode_word(dc),
        mode_word(iq),
        ieee::to_bits64(c.fs),
        ieee::to_bits64(c.centre),
        c.n as u64,
    ];
    let middle = calibration_words(calibration);
    let back = [c.spans as u64, c.repairs as u64, u64::from(edition)];
    write_words(rt, &front)?;
    write_words(rt, &middle)?;
    write_words(rt, &back)
}

// Whether all is off, and `observing`.
pub fn config(rt: &impl Print, input: &[u64]) -> io::Result<()> {
    let c = configuration(input);
    write_front(rt, [2, c.is_off() as u64, 0, 0, 0, 0, 0, 13])?;
    write_configuration(rt, c.observing())
}

// ---- making

// How much of each store is lent.
pub fn lent(spans: u64, repairs: u64, monitor: u64) -> Lent {
    Lent {
        spans: spans as usize,
        repairs: repairs as usize,
        monitor: monitor as usize,
    }
}

// The new chain, or the one before where none was made.
pub fn make(
    rt: &impl Print,
    state: &mut [u64; STATE_WORDS],
    head: Head,
    input: &[u64],
    spans: &mut [u64; SPAN_WORDS],
    repairs: &mut [u64; REPAIR_WORDS],
    monitor: &mut [f64; MONITOR_WORDS],
) -> io::Result<()> {
    let number = test_operations::make(
        configuration(input),
        state,
        spans,
        repairs,
        monitor,
        lent(head.a, head.b, head.c),
    );
    answer_plain(rt, 1, plain(number), 0, 0)
}

// The words of the chain before the first making.
pub fn first() -> [u64; STATE_WORDS] {
    let config = ConditioningConfig {
        impulse: StageMode::Apply,
        dc: StageMode::Apply,
        iq: StageMode::Observe,
        fs: 48000.0,
        centre: 0.0,
        n: 8,
        calibration: None,
        spans: 2,
        repairs: 2,
        edition: PauseEdition::First,
    };
    let mut state = [0u64; STATE_WORDS];
    let mut spans = [0u64; 48];
    let mut repairs = [0u64; 12];
    let mut monitor = [0.0f64; 32];
    test_operations::make(
        config,
        &mut state,
        &mut spans,
        &mut repairs,
        &mut monitor,
        lent(48, 12, 32),
    );
    state
}
