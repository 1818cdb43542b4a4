// What a state and the stores hold, as words.

use crate::words::{answer_plain, bits, show_first, write_between, write_front, write_words};
use crate::{Head, MONITOR_WORDS};
use chain_log::ConditioningLog;
use chain_words::{APPLY, COEFFICIENT, RINGS, SEEN, STATE_WORDS, WINDOW, iq_words};
use complex::Complex64;
use stage_log::{Mark, Ring, Span, Stage};
use std::io;
use test_operations::{NOTHING, part, plain};

// ---- the log

fn write_ring(rt: &impl Print, samples: u64, ring: Ring) -> io::Result<()> {
    let words = [samples, ring.head as u64, ring.count as u64, ring.dropped];
    write_words(rt, &words)
}

fn write_rings(rt: &impl Print, log: &ConditioningLog) -> io::Result<()> {
    for marks in &log.notes.log.marks {
        write_ring(rt, marks.samples, marks.ring)?;
    }
    Ok(())
}

fn write_complex(rt: &impl Print, there: u64, z: Complex64) -> io::Result<()> {
    let words = [there, ieee::to_bits64(z.re), ieee::to_bits64(z.im)];
    write_words(rt, &words)
}

fn write_level(rt: &impl Print, level: Option<Complex64>) -> io::Result<()> {
    match level {
        Some(dc) => write_complex(rt, 1, dc),
        None => write_complex(rt, 0, Complex64 { re: 0.0, im: 0.0 }),
    }
}

fn write_counts(rt: &impl Print, log: &ConditioningLog) -> io::Result<()> {
    let notes = log.notes;
    let ring = notes.repairs;
    let words = [
        log.dropped,
        ring.head as u64,
        ring.count as u64,
        ring.dropped,
        notes.longruns,
    ];
    write_words(rt, &words)
}

fn write_log(rt: &impl Print, log: ConditioningLog) -> io::Result<()> {
    let counts = log.counts;
    let samples = [counts.seen, counts.released, counts.held as u64];
    write_words(rt, &samples)?;
    write_rings(rt, &log)?;
    write_counts(rt, &log)?;
    let level = log.dclevel;
    let iq = log.iq;
    write_level(rt, level)?;
    write_words(rt, &[counts.clamped])?;
    write_words(rt, &iq_words(iq))
}

pub fn log(rt: &impl Print, state: &[u64; STATE_WORDS]) -> io::Result<()> {
    write_front(rt, [5, 0, 0, 0, 0, 0, 0, 63])?;
    write_log(rt, chain_log::log(&chain_words::read_state(state)))
}

// ---- the state

// The settings, but for the coefficient; the stages' numbers; the suppressor's arrays.
pub fn state(rt: &impl Print, state: &[u64; STATE_WORDS]) -> io::Result<()> {
    write_front(rt, [6, 0, 0, 0, 0, 0, 0, 114])?;
    write_between(rt, state, 0, COEFFICIENT)?;
    write_between(rt, state, APPLY, SEEN)?;
    write_between(rt, state, WINDOW, RINGS)
}

// ---- the stores

fn shown_in_all(a: usize, b: usize, c: usize, how: u64) -> u64 {
    match how {
        1 => 3,
        _ => std::num::wrapping_add_u64(std::num::wrapping_add_u64(a as u64, b as u64), c as u64),
    }
}

pub fn stores(
    rt: &impl Print,
    head: Head,
    spans: &[u64],
    repairs: &[u64],
    words: &[f64; MONITOR_WORDS],
) -> io::Result<()> {
    let a = part(spans, head.a as usize);
    let b = part(repairs, head.b as usize);
    let monitor = bits(words);
    let c = part(&monitor, head.c as usize);
    let shown = shown_in_all(a, b, c, head.how);
    write_front(rt, [7, 0, 0, a as u64, b as u64, c as u64, 0, shown])?;
    show_first(rt, spans, a, head.how)?;
    show_first(rt, repairs, b, head.how)?;
    show_first(rt, &monitor, c, head.how)
}

// ---- a span: its ring by the numbers that the C library takes, whose own functions no program can call

fn stage(w: u64) -> Stage {
    match w {
        0 => Stage::Impulse,
        1 => Stage::Dc,
        _ => Stage::Iq,
    }
}

fn kind(w: u64) -> Mark {
    match w {
        0 => Mark::Repaired,
        1 => Mark::Flagged,
        2 => Mark::Corrected,
        _ => Mark::Uncertain,
    }
}

fn write_span(rt: &impl Print, read: Option<Span>) -> io::Result<()> {
    match read {
        Some(s) => answer_plain(rt, 8, plain(0), s.start, s.len),
        None => answer_plain(rt, 8, plain(NOTHING), 0, 0),
    }
}

pub fn span(
    rt: &impl Print,
    state: &[u64; STATE_WORDS],
    head: Head,
    spans: &[u64],
) -> io::Result<()> {
    let a = part(spans, head.d as usize);
    let read = chain_log::span(
        &chain_words::read_state(state),
        &spans[..a],
        stage(head.a),
        kind(head.b),
        head.c as usize,
    );
    write_span(rt, read)
}
