// The conditioner as a C library. A state is words that the caller lends, and so are the stores and the
// words that values go to. Whatever they hold, every function takes them; a state that is written says
// the same state when it is read.
#![tactic(auto)]

ghost use Rattle.std.specs.Prelude.{◌≡◌};
ghost use Rattle.rules.specs.Log.{repair_width, store_width};
ghost use Rattle.rules.specs.Monitor.{channel_width};
ghost use Rattle.iq_monitor.specs.Observe.{report_from};
ghost use Rattle.iq_monitor.specs.Observe as monitor;
ghost use Rattle.chain.specs.Stages.{machine_of};
ghost use Rattle.refusal.specs.Words.{said_by};
ghost use Rattle.rules.specs.Answers.{accepted};
ghost use Rattle.chain_log.specs.Reading.{said_span};
ghost use Rattle.chain_words.specs.Places.{state_words};
ghost use Rattle.chain_words.specs.States.{state_of};
ghost use Rattle.vatgorge.specs.Codes.{nothing_code, words_after, state_after, put_from};
ghost use Rattle.vatgorge.specs.Condition as condition;
ghost use Rattle.vatgorge.specs.Hop as hop;
ghost use Rattle.vatgorge.specs.Log as log;
ghost use Rattle.vatgorge.specs.Span as span;
ghost use Rattle.vatgorge.specs.Undo as undo;

use chain_log::ConditioningLog;
use chain_state::InputConditioner;
use complex::Complex64;
use iq_monitor::{Evidence, Heard, ImageMonitor};
use refusal::Refusal;
use stage_log::{Mark, Span, Stage};

mod config;
mod making;
mod recording;
mod stages;

// The answer 'nothing'. Others are 0, accepted, and the documents' numbers.
pub const NOTHING: u64 = 100;

// How many words are lent for the values of a call, a hop and a span.
pub const CONDITION_WORDS: usize = 2;

pub const HOP_WORDS: usize = 9;

pub const SPAN_WORDS: usize = 2;

// Of a log: its numbers, and all of its words.
const LOG_NUMBERS: usize = 15;

pub const LOG_WORDS: usize = LOG_NUMBERS + 48;

// ---- what a header names

#[unsafe(no_mangle)]
pub extern "C" fn vg_nothing() -> u64
    ensures { result ≡ nothing_code }
{
    NOTHING
}

#[unsafe(no_mangle)]
pub extern "C" fn vg_state_words() -> u64
    ensures { result ≡ state_words }
{
    chain_words::STATE_WORDS as u64
}

#[unsafe(no_mangle)]
pub extern "C" fn vg_condition_words() -> u64
    ensures { result ≡ 2 }
{
    CONDITION_WORDS as u64
}

#[unsafe(no_mangle)]
pub extern "C" fn vg_hop_words() -> u64
    ensures { result ≡ 9 }
{
    HOP_WORDS as u64
}

#[unsafe(no_mangle)]
pub extern "C" fn vg_log_words() -> u64
    ensures { result ≡ log.word_count }
{
    LOG_WORDS as u64
}

#[unsafe(no_mangle)]
pub extern "C" fn vg_span_words() -> u64
    ensures { result ≡ 2 }
{
    SPAN_WORDS as u64
}

// The span store's words for each span that a ring holds.
#[unsafe(no_mangle)]
pub extern "C" fn vg_span_store_words() -> u64
    ensures { result ≡ store_width }
{
    stage_log::STORE_WORDS as u64
}

// The repair store's words for each repair.
#[unsafe(no_mangle)]
pub extern "C" fn vg_repair_store_words() -> u64
    ensures { result ≡ repair_width }
{
    stage_log::REPAIR_WORDS as u64
}

// The monitor store's words for each channel.
#[unsafe(no_mangle)]
pub extern "C" fn vg_monitor_store_words() -> u64
    ensures { result ≡ channel_width }
{
    ImageMonitor::CHANNEL_WORDS as u64
}

// ---- the state's words

// Writes the state where the answer is 0.
fn keep(code: u64, state: InputConditioner, words: &mut [u64; chain_words::STATE_WORDS])
    ensures words { words.new ≡ words_after code words.old state }
    ensures again { state_of words.new ≡ state_after code words.old state }
{
    if code == 0 {
        chain_words::write_state(state, words);
    }
}

// ---- a call

// How many samples are ready goes to the first word, the place of one that is not usable to the second.
fn tell_call(answer: Result<usize, Refusal>, out: &mut [u64; CONDITION_WORDS])
    ensures { out.new ≡ condition.out_after out.old (said_by accepted answer) }
{
    match answer {
        Ok(ready) => out[0] = ready as u64,
        Err(Refusal::OutOfRange(place)) => out[1] = place as u64,
        Err(_) => {}
    }
}

// A call: 0, with how many samples are ready at the front in the first word of `out`; 7, with the place
// in the second; or 4, 5, 6, 8. A refusal writes nothing else.
#[unsafe(no_mangle)]
pub extern "C" fn vg_condition(
    state: &mut [u64; chain_words::STATE_WORDS],
    samples: &mut [u64],
    spans: &mut [u64],
    repairs: &mut [u64],
    out: &mut [u64; CONDITION_WORDS],
) -> u64
    ensures after { ◌≡◌ {A = condition.After}
        (record {
          code = result;
          state = state.new;
          samples = samples.new;
          spans = spans.new;
          repairs = repairs.new;
          out =
              out.new;
        }) (condition.after state.old samples.old spans.old repairs.old out.old) }
    ensures chain { machine_of (state_of state.new) spans.new repairs.new
        ≡ (condition.called_in state.old samples.old spans.old repairs.old).machine }
{
    let mut next = chain_words::read_state(state);
    let answer = chain_call::condition(&mut next, samples, spans, repairs);
    let code = refusal::number(&answer);
    keep(code, next, state);
    tell_call(answer, out);
    code
}

// ---- a hop

fn hop_code(answer: Result<Heard, Refusal>) -> u64
    ensures { result ≡ hop.code_of (monitor.said answer) }
{
    match answer {
        Ok(Heard::Nothing) => NOTHING,
        Ok(_) => 0,
        Err(refusal) => refusal.number(),
    }
}

fn report_words(e: Evidence) -> [u64; 8]
    ensures { result ≡ hop.report_words (report_from e) }
{
    [
        1,
        e.start,
        e.end,
        chain_words::flag_word(e.suspected),
        ieee::to_bits64(e.coherence),
        ieee::to_bits64(e.floor),
        ieee::to_bits64(e.strongest),
        ieee::to_bits64(e.mirror),
    ]
}

fn tell_report(e: Evidence, out: &mut [u64; HOP_WORDS])
    ensures { out.new ≡ put_from 0 (hop.report_words (report_from e)) out.old }
{
    out[..8].copy_from_slice(&report_words(e));
}

// Whether there is a report goes to the first word, and the report behind it; the place of a channel
// that is not within the limit goes to the last.
fn tell_hop(answer: Result<Heard, Refusal>, out: &mut [u64; HOP_WORDS])
    ensures { out.new ≡ hop.out_after out.old (monitor.said answer) }
{
    match answer {
        Ok(Heard::NoReport) => out[0] = 0,
        Ok(Heard::Report(e)) => tell_report(e, out),
        Err(Refusal::OutOfRange(place)) => out[8] = place as u64,
        _ => {}
    }
}

// A hop of channels at this start: 0, 'nothing', 4, 5, 9, or 7. The words of `out`: whether there is a
// report; its start and end, whether a mirror image is suspected, and the bits of its coherence, floor,
// strongest power and that one's mirror, where there is one; the place, at 7. All others stay.
#[unsafe(no_mangle)]
pub extern "C" fn vg_hop(
    state: &mut [u64; chain_words::STATE_WORDS],
    channels: &[u64],
    start: u64,
    spans: &mut [u64],
    monitor: &mut [f64],
    out: &mut [u64; HOP_WORDS],
) -> u64
    ensures after { ◌≡◌ {A = hop.After}
        (record { code = result; state = state.new; spans = spans.new; monitor = monitor.new; out = out.new })
        (hop.after state.old channels.now start spans.old monitor.old out.old) }
    ensures chain { state_of state.new
        ≡ (hop.hopped_in state.old channels.now start spans.old monitor.old).state }
{
    let mut after = chain_words::read_state(state);
    let answer = chain_hop::observe_hop(&mut after, channels, start, spans, monitor);
    let code = hop_code(answer);
    keep(code, after, state);
    tell_hop(answer, out);
    code
}

// ---- the log

fn level_words(level: Option<Complex64>) -> [u64; 3]
    ensures { result ≡ log.level_words level }
{
    match level {
        None => [0, 0, 0],
        Some(z) => [1, ieee::to_bits64(z.re), ieee::to_bits64(z.im)],
    }
}

fn log_numbers(l: &ConditioningLog) -> [u64; LOG_NUMBERS]
    ensures { result ≡ log.number_words l.now }
{
    let ring = chain_words::ring_words(l.notes.repairs);
    let level = level_words(l.dclevel);
    let settled = chain_words::iq_words(l.iq);
    [
        l.counts.seen,
        l.counts.released,
        l.counts.held as u64,
        l.dropped,
        ring[0],
        ring[1],
        ring[2],
        l.notes.longruns,
        level[0],
        level[1],
        level[2],
        l.counts.clamped,
        settled[0],
        settled[1],
        settled[2],
    ]
}

// The log of a state, in every word of `out`: the samples seen, released and held; the dropped spans;
// the repair ring's head, count and dropped; the runs that were too long; the DC level, a tag and two
// words, and on how many samples its update was clamped; what IQ settled, a tag and two words; of each of
// twelve rings its head, count and dropped; twelve counts.
#[unsafe(no_mangle)]
pub extern "C" fn vg_log(state: &[u64; chain_words::STATE_WORDS], out: &mut [u64; LOG_WORDS])
    ensures { out.new ≡ log.after state.now }
{
    let l = chain_log::log(&chain_words::read_state(state));
    chain_words::put(&log_numbers(&l), out, 0);
    chain_words::put_log(l.notes.log, out, LOG_NUMBERS);
}

// ---- a span

// Any other is IQ.
fn stage_at(w: u64) -> Stage
    ensures { result ≡ span.stage_at w }
{
    match w {
        0 => Stage::Impulse,
        1 => Stage::Dc,
        _ => Stage::Iq,
    }
}

// Any other is uncertain.
fn mark_at(w: u64) -> Mark
    ensures { result ≡ span.mark_at w }
{
    match w {
        0 => Mark::Repaired,
        1 => Mark::Flagged,
        2 => Mark::Corrected,
        _ => Mark::Uncertain,
    }
}

fn tell_span(read: Option<Span>, out: &mut [u64; SPAN_WORDS]) -> u64
    ensures { ◌≡◌ {A = span.After} (record { code = result; out = out.new }) (span.after_found out.old (said_span read)) }
{
    match read {
        None => NOTHING,
        Some(s) => {
            out[0] = s.start;
            out[1] = s.len;
            0
        }
    }
}

// Span number i of a ring, the oldest first: 0, with its start and length in `out`, or 'nothing', and
// then `out` stays. The stage is 0 impulse, 1 DC, and any other IQ; the mark 0 repaired, 1 flagged, 2
// corrected, and any other uncertain.
#[unsafe(no_mangle)]
pub extern "C" fn vg_span(
    state: &[u64; chain_words::STATE_WORDS],
    spans: &[u64],
    stage: u64,
    mark: u64,
    i: usize,
    out: &mut [u64; SPAN_WORDS],
) -> u64
    ensures { ◌≡◌ {A = span.After} (record { code = result; out = out.new })
        (span.after state.now spans.now stage mark i out.old) }
{
    let read = chain_log::span(
        &chain_words::read_state(state),
        spans,
        stage_at(stage),
        mark_at(mark),
        i,
    );
    tell_span(read, out)
}

// ---- repair undo

// Puts the originals that the repair ring holds back in their places: 0, or 4, 5, and then all samples
// stay. The slice begins with sample `first`.
#[unsafe(no_mangle)]
pub extern "C" fn vg_undo_repairs(
    state: &[u64; chain_words::STATE_WORDS],
    repairs: &[u64],
    samples: &mut [u64],
    first: u64,
) -> u64
    ensures { ◌≡◌ {A = undo.After} (record { code = result; samples = samples.new })
        (undo.after state.now repairs.now samples.old first) }
{
    let state = chain_words::read_state(state);
    refusal::number(&chain_undo::revert_repairs(&state, repairs, samples, first))
}
