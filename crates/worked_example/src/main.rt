// A worked example: sixty samples with one click, mended in two calls, and the repair undone.
#![tactic(auto)]

use chain_config::ConditioningConfig;
use chain_state::InputConditioner;
use complex::Complex32;
use impulse_pause::PauseEdition;
use refusal::Refusal;
use stage_log::{Mark, Stage};
use stage_mode::StageMode;
use std::io;

// The sample (re, 0), as a word.
fn real(re: f32) -> u64 {
    Complex32 { re, im: 0.0 }.pack()
}

// At 48 kHz, with room for 4 spans in each ring and for 4 repairs. The impulse stage mends.
fn configuration() -> ConditioningConfig {
    ConditioningConfig {
        impulse: StageMode::Apply,
        dc: StageMode::Off,
        iq: StageMode::Off,
        fs: 48000.0,
        centre: 7.1e6,
        n: 8,
        calibration: None,
        spans: 4,
        repairs: 4,
        edition: PauseEdition::First,
    }
}

fn print_line(rt: &impl Print, words: &str, n: u64) -> io::Result<()> {
    println!(rt; "{words}{n}")
}

fn print_sample(rt: &impl Print, words: &str, x: u64) -> io::Result<()> {
    println!(rt; "{words}{x:016x}")
}

// How many samples a call released; a refused one releases none.
fn released(answer: Result<usize, Refusal>) -> u64 {
    match answer {
        Ok(k) => k as u64,
        Err(_) => 0,
    }
}

// What the log says: the samples seen, released and held, and where the click was.
fn print_log(rt: &impl Print, state: &InputConditioner, spans: &[u64]) -> io::Result<()> {
    let log = chain_log::log(state);
    let counts = log.counts;
    print_line(rt, "seen ", counts.seen)?;
    print_line(rt, "released ", counts.released)?;
    print_line(rt, "held ", counts.held as u64)?;
    let read = chain_log::span(state, spans, Stage::Impulse, Mark::Repaired, 0);
    let Some(span) = read else {
        return Ok(());
    };
    print_line(rt, "mended at ", span.start)
}

// A call, which says how many samples are ready.
fn call(
    rt: &impl Print,
    state: &mut InputConditioner,
    samples: &mut [u64],
    spans: &mut [u64],
    repairs: &mut [u64],
) -> io::Result<()> {
    let answer = chain_call::condition(state, samples, spans, repairs);
    print_line(rt, "ready ", released(answer))
}

fn main(rt: HostRuntime) -> io::Result<()> {
    // the stores, which the caller owns and lends
    let mut spans = [0u64; 96];
    let mut repairs = [0u64; 24];
    let mut words = [0.0f64; 32];
    let made = chain_make::with_geometry(configuration(), &mut spans, &mut repairs, &mut words);
    let Ok(Some(mut state)) = made else {
        return Ok(());
    };

    // thirty samples, a click at 20: nine are released and 21 held
    let mut first = [real(1.0); 30];
    first[20] = real(100.0);
    call(&rt, &mut state, &mut first, &mut spans, &mut repairs)?;

    // thirty more, behind the places of the held ones: samples 9 to 38 are released
    let mut second = [real(1.0); 51];
    call(&rt, &mut state, &mut second, &mut spans, &mut repairs)?;
    print_sample(&rt, "sample 20 is ", second[11])?;
    print_log(&rt, &state, &spans)?;

    // the repair lifted out again
    if let Err(refusal) = chain_undo::revert_repairs(&state, &repairs, &mut second, 9) {
        return print_line(&rt, "refused: ", refusal.number());
    }
    print_sample(&rt, "sample 20 was ", second[11])
}
