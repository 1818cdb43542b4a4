// The impulse stage over the new part of a call's slice, in place, and what it tells the log.
#![tactic(auto)]

ghost use Rattle.std.specs.Prelude.{◌≡◌, List, ◌++◌, ℕ, ◌+◌, ◌-◌, ◌^◌, ◌≤◌, ◌<◌, length, get_or, drop};
ghost use Rattle.stage_log.specs.Ready.{Bounded};
ghost use Rattle.impulse.specs.Machine.{setting_of};
ghost use Rattle.impulse.specs.View.{given};
ghost use Rattle.impulse.specs.Room.{Room};
ghost use Rattle.impulse.specs.Running.{step, emit, news};
ghost use Rattle.impulse_slice.specs.Noted.{noted_of, note_all, doubts, filled_events, ended_end, state_after, handed, told, placed, over, Roomy};

use impulse::{Ended, ImpulseSuppressor};
use stage_log::{Mark, Notes, Repair, Span, Stage};

// ---- telling the log

// The notes and the two stores with their capacities go together here. They stay parameters: a struct of them would
// hold the stores' loans, and what a loan in a field leaves takes more words to say than their names.

// A judged sample of a paused block is uncertain.
fn note_doubt(notes: &mut Notes, doubt: bool, j: u64, spans: &mut [u64], span_capacity: usize)
    requires bounded { Bounded span_capacity (2 ^ 60) (record { log = notes.old.log; spans = spans.old }) }
    requires j_bound { j ≤ 2 ^ 60 }
    ensures { (repair_capacity : ℕ) (rs : List ℕ)
        → noted_of notes.new spans.new rs ≡ note_all span_capacity repair_capacity (noted_of notes.old spans.old rs) (doubts j doubt) }
{
    if !doubt {
        return;
    }
    notes.log.mark(
        spans,
        span_capacity,
        Stage::Impulse,
        Mark::Uncertain,
        Span { start: j, len: 1 },
    );
}

// A run that was kept is flagged, and a long one is counted.
fn note_kept(
    notes: &mut Notes,
    start: u64,
    len: u64,
    long: bool,
    spans: &mut [u64],
    span_capacity: usize,
)
    requires bounded { Bounded span_capacity (2 ^ 61) (record { log = notes.old.log; spans = spans.old }) }
    requires longruns_bound { (notes.old.longruns ≤ 2 ^ 61) × (start + len ≤ 2 ^ 60) }
    ensures { (repair_capacity : ℕ) (rs : List ℕ)
        → noted_of notes.new spans.new rs
        ≡ note_all span_capacity repair_capacity (noted_of notes.old spans.old rs) (filled_events (Ended.Kept start len long)) }
{
    notes.log.mark(
        spans,
        span_capacity,
        Stage::Impulse,
        Mark::Flagged,
        Span { start, len },
    );
    notes.longruns += u64::from(long);
}

// A run that was mended is marked, and its originals are recorded.
fn note_mended(
    notes: &mut Notes,
    r: Repair,
    spans: &mut [u64],
    span_capacity: usize,
    repairs: &mut [u64],
    repair_capacity: usize,
)
    requires roomy { Roomy span_capacity repair_capacity (2 ^ 61) (noted_of notes.old spans.old repairs.old) }
    requires len_bound { r.start + r.len ≤ 2 ^ 60 }
    ensures { noted_of notes.new spans.new repairs.new
        ≡ note_all span_capacity repair_capacity (noted_of notes.old spans.old repairs.old) (filled_events (Ended.Mended r)) }
{
    notes.log.mark(
        spans,
        span_capacity,
        Stage::Impulse,
        Mark::Repaired,
        Span {
            start: r.start,
            len: r.len,
        },
    );
    notes.repairs.record(repairs, repair_capacity, r);
}

// What became of a run.
fn note_ended(
    notes: &mut Notes,
    ended: Ended,
    spans: &mut [u64],
    span_capacity: usize,
    repairs: &mut [u64],
    repair_capacity: usize,
)
    requires roomy { Roomy span_capacity repair_capacity (2 ^ 61) (noted_of notes.old spans.old repairs.old) }
    requires ended_bound { ended_end ended ≤ 2 ^ 60 }
    ensures { noted_of notes.new spans.new repairs.new
        ≡ note_all span_capacity repair_capacity (noted_of notes.old spans.old repairs.old) (filled_events ended) }
{
    match ended {
        Ended::Going => {}
        Ended::Kept { start, len, long } => {
            note_kept(notes, start, len, long, spans, span_capacity);
        }
        Ended::Mended(r) => {
            note_mended(notes, r, spans, span_capacity, repairs, repair_capacity);
        }
    }
}

// What a push said of the judged sample j and of a run.
fn note(
    notes: &mut Notes,
    doubt: bool,
    j: u64,
    ended: Ended,
    spans: &mut [u64],
    span_capacity: usize,
    repairs: &mut [u64],
    repair_capacity: usize,
)
    requires roomy { Roomy span_capacity repair_capacity (2 ^ 60) (noted_of notes.old spans.old repairs.old) }
    requires j_bound { (j ≤ 2 ^ 60) × (ended_end ended ≤ 2 ^ 60) }
    ensures { noted_of notes.new spans.new repairs.new
        ≡ note_all span_capacity repair_capacity (noted_of notes.old spans.old repairs.old) (doubts j doubt ++ filled_events ended) }
{
    note_doubt(notes, doubt, j, spans, span_capacity);
    note_ended(notes, ended, spans, span_capacity, repairs, repair_capacity);
}

// ---- one sample

// A released sample goes to place `out`; the answer is the next place.
fn put(samples: &mut [u64], out: usize, answer: Option<u64>) -> usize
    requires { out < length samples.old }
    ensures result { result ≡ out + length (given answer) }
    ensures words { samples.new ≡ placed samples.old out (given answer) }
{
    let Some(x) = answer else {
        return out;
    };
    samples[out] = x;
    out + 1
}

// Sample k is pushed, what that says is told, and what it releases is written; the answer is the place
// behind the released ones.
fn take(
    samples: &mut [u64],
    k: usize,
    out: usize,
    suppressor: &mut ImpulseSuppressor,
    notes: &mut Notes,
    spans: &mut [u64],
    span_capacity: usize,
    repairs: &mut [u64],
    repair_capacity: usize,
) -> usize
    requires k_in_bounds { (k < length samples.old) × (out ≤ k) }
    requires room { Room suppressor.old.gate }
    requires roomy { Roomy span_capacity repair_capacity (2 ^ 60) (noted_of notes.old spans.old repairs.old) }
    ensures suppressor { suppressor.new ≡ step (setting_of suppressor.old.gate) suppressor.old (get_or samples.old k 0) }
    ensures noted { noted_of notes.new spans.new repairs.new
        ≡ note_all span_capacity repair_capacity (noted_of notes.old spans.old repairs.old)
        (news (setting_of suppressor.old.gate) suppressor.old (get_or samples.old k 0)) }
    ensures ready { result ≡ out + length (emit (setting_of suppressor.old.gate) suppressor.old (get_or samples.old k 0)) }
    ensures written { samples.new
        ≡ placed samples.old out (emit (setting_of suppressor.old.gate) suppressor.old (get_or samples.old k 0)) }
{
    let j = impulse::next_judged(suppressor.gate.received);
    let p = suppressor.push(samples[k]);
    note(
        notes,
        p.uncertain,
        j,
        p.ended,
        spans,
        span_capacity,
        repairs,
        repair_capacity,
    );
    put(samples, out, p.answer)
}

// Takes the samples behind the first `held`, one after the other; the answer is how many were released.
pub fn run(
    samples: &mut [u64],
    held: usize,
    suppressor: &mut ImpulseSuppressor,
    notes: &mut Notes,
    spans: &mut [u64],
    span_capacity: usize,
    repairs: &mut [u64],
    repair_capacity: usize,
) -> usize
    requires held_in_bounds { held ≤ length samples.old }
    requires room { held < length samples.old
        → Room suppressor.old.gate × (suppressor.old.gate.received + (length samples.old - held) ≤ 2 ^ 50) }
    requires roomy { Roomy span_capacity repair_capacity (2 ^ 52) (noted_of notes.old spans.old repairs.old) }
    ensures suppressor { suppressor.new ≡ state_after (setting_of suppressor.old.gate) suppressor.old (drop held samples.old) }
    ensures noted { noted_of notes.new spans.new repairs.new
        ≡ note_all span_capacity repair_capacity (noted_of notes.old spans.old repairs.old)
        (told (setting_of suppressor.old.gate) suppressor.old (drop held samples.old)) }
    ensures ready { result ≡ length (handed (setting_of suppressor.old.gate) suppressor.old (drop held samples.old)) }
    ensures written { samples.new ≡ over (handed (setting_of suppressor.old.gate) suppressor.old (drop held samples.old)) samples.old }
{
    let mut out: usize = 0;
    // by number: what is released is written in front of what is read
    for k in held..samples.len() {
        out = take(
            samples,
            k,
            out,
            suppressor,
            notes,
            spans,
            span_capacity,
            repairs,
            repair_capacity,
        );
    }
    out
}
