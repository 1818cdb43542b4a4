// The log of a state, and the spans in its store. Any state and any store can be read.
#![tactic(auto)]

ghost use Rattle.std.specs.Prelude.{◌≡◌, true, ◌&&◌, ◌<◌, ltb, length, get_or};
ghost use Rattle.complex.specs.View.{view64};
ghost use Rattle.rules.specs.Log.{ring_number, span_of, spans_of};
ghost use Rattle.stage_log.specs.View.{stage_of, mark_of, marks_at};
ghost use Rattle.stage_log.specs.Check.{ring_of};
ghost use Rattle.stage_mode.specs.View.{mode_of};
ghost use Rattle.chain_log.specs.Reading.{level_of, level_where, state_level, log_of, said_span, store_fits, readable, span_read};

use chain_state::{Counts, InputConditioner};
use complex::Complex64;
use iq::Iq;
use stage_log::{Log, Mark, Notes, Ring, Span, Stage};
use stage_mode::StageMode;

// The log, as a state holds it: the samples seen, released and held, and on how many the DC update was
// clamped; of each ring its count, head, length and dropped spans, and the dropped spans of all; the
// repair ring; the runs that were too long; the DC level, and what IQ settled. The spans and repairs
// themselves stand in the lent stores.
#[derive(Drop)]
pub struct ConditioningLog {
    pub counts: Counts,
    pub notes: Notes,
    pub dropped: u64,
    // None where the stage is off.
    pub dclevel: Option<Complex64>,
    pub iq: Iq,
}

fn dc_level(mode: StageMode, dc: Complex64) -> Option<Complex64>
    ensures { level_of result ≡ level_where (mode_of mode) (view64 dc) }
{
    match mode {
        StageMode::Off => None,
        StageMode::Observe => Some(dc),
        StageMode::Apply => Some(dc),
    }
}

// The log of a state.
pub fn log(state: &InputConditioner) -> ConditioningLog
    ensures log { result ≡ log_of state.now }
    ensures level { level_of result.dclevel ≡ state_level state.now }
{
    ConditioningLog {
        counts: state.counts,
        notes: state.notes,
        dropped: state.notes.log.dropped(),
        dclevel: dc_level(state.settings.dc, state.blocker.dc),
        iq: state.settings.iq,
    }
}

// Whether a store of so many words is that of rings of this capacity.
fn store_fits(capacity: usize, words: usize) -> bool
    ensures { result ≡ store_fits capacity words }
{
    0 < capacity
        && capacity <= chain_config::SPAN_LIMIT
        && words == stage_log::STORE_WORDS * capacity
}

// Whether a ring's head and length are in range, and it has a span of this number.
fn has_span(ring: Ring, capacity: usize, i: usize) -> bool
    ensures { result ≡ (readable capacity ring && ltb i ring.count) }
{
    ring.head < capacity && ring.count <= capacity && i < ring.count
}

// Span number i of ring number which, the oldest first.
fn read_span(log: &Log, spans: &[u64], capacity: usize, which: usize, i: usize) -> Span
    requires which_bound { (which < 12) × (store_fits capacity (length spans.now) ≡ true) }
    requires which_value { (readable capacity (ring_of log.now which) && ltb i (ring_of log.now which).count) ≡ true }
    ensures { span_of result.start result.len
        ≡ get_or (spans_of capacity (marks_at capacity (record { log = log.now; spans = spans.now }) which).ring) i (span_of 0 0) }
{
    let a = which * (capacity * stage_log::SPAN_WORDS);
    let e = a + capacity * stage_log::SPAN_WORDS;
    stage_log::span_at(log.marks[which].ring, &spans[a..e], capacity, i)
}

// Span number i of a ring, the oldest first, if there is one.
pub fn span(
    state: &InputConditioner,
    spans: &[u64],
    stage: Stage,
    kind: Mark,
    i: usize,
) -> Option<Span>
    ensures { said_span result ≡ span_read state.now spans.now (ring_number (stage_of stage) (mark_of kind)) i }
{
    let capacity = state.settings.spans;
    if !store_fits(capacity, spans.len()) {
        return None;
    }
    let which = stage_log::ring_number(stage, kind);
    if !has_span(state.notes.log.marks[which].ring, capacity, i) {
        return None;
    }
    Some(read_span(&state.notes.log, spans, capacity, which, i))
}
