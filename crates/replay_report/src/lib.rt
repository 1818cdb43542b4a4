// The report of a state, put into a lent store of bytes. A stage and a mark together name a ring.
#![tactic(auto)]

ghost use Rattle.std.specs.Prelude.{◌≡◌, min, length};
ghost use Rattle.stage_log.specs.View.{stage_of, mark_of};
ghost use Rattle.replay_text.specs.Text.{each, put, Added};
ghost use Rattle.chain_log.specs.Reading.{level_of};
ghost use Rattle.replay_report.specs.Lines.{level_line};
ghost use Rattle.replay_report.specs.Report.{marks, report_text};
ghost use Rattle.replay_report.specs.Shown.{shown_count, shown_counts, shown_lines, all_lines, shown_rest, report_in};

mod lines;

use chain_state::InputConditioner;
use complex::Complex64;
use replay_text::Text;
use stage_log::{Log, Mark, Stage};

// ---- the counts

// The count line of a ring of the log.
fn put_count_of(text: &mut Text, log: &Log, stage: Stage, kind: Mark)
    ensures { Added text.old (shown_count log.now (stage_of stage) (mark_of kind)) text.new }
{
    let marks = log.marks[stage_log::ring_number(stage, kind)];
    lines::put_count(text, stage, kind, marks.samples);
}

// The four marks in ring order, written out: a loop over a constant would need that constant proved to be
// the definition's list `marks`. The three stages below likewise.
fn put_stage_counts(text: &mut Text, log: &Log, stage: Stage)
    ensures { Added text.old (each (shown_count log.now (stage_of stage)) marks) text.new }
{
    put_count_of(text, log, stage, Mark::Repaired);
    put_count_of(text, log, stage, Mark::Flagged);
    put_count_of(text, log, stage, Mark::Corrected);
    put_count_of(text, log, stage, Mark::Uncertain);
}

fn put_counts(text: &mut Text, log: &Log)
    ensures { Added text.old (shown_counts log.now) text.new }
{
    put_stage_counts(text, log, Stage::Impulse);
    put_stage_counts(text, log, Stage::Dc);
    put_stage_counts(text, log, Stage::Iq);
}

// ---- the spans

// The spans of a ring, the oldest first. The log is asked for each by its number.
fn put_spans_of(text: &mut Text, state: &InputConditioner, spans: &[u64], stage: Stage, kind: Mark)
    ensures { Added text.old (shown_lines state.now spans.now (stage_of stage) (mark_of kind)) text.new }
{
    for i in 0..chain_config::SPAN_LIMIT {
        let Some(s) = chain_log::span(state, spans, stage, kind, i) else {
            return;
        };
        lines::put_span(text, stage, kind, s);
    }
}

fn put_stage_spans(text: &mut Text, state: &InputConditioner, spans: &[u64], stage: Stage)
    ensures { Added text.old (each (shown_lines state.now spans.now (stage_of stage)) marks) text.new }
{
    put_spans_of(text, state, spans, stage, Mark::Repaired);
    put_spans_of(text, state, spans, stage, Mark::Flagged);
    put_spans_of(text, state, spans, stage, Mark::Corrected);
    put_spans_of(text, state, spans, stage, Mark::Uncertain);
}

fn put_spans(text: &mut Text, state: &InputConditioner, spans: &[u64])
    ensures { Added text.old (all_lines state.now spans.now) text.new }
{
    put_stage_spans(text, state, spans, Stage::Impulse);
    put_stage_spans(text, state, spans, Stage::Dc);
    put_stage_spans(text, state, spans, Stage::Iq);
}

// ---- what follows the rings

fn put_level(text: &mut Text, level: Option<Complex64>)
    ensures { Added text.old (level_line (level_of level)) text.new }
{
    match level {
        None => text.put(b"dc none\n"),
        Some(z) => lines::put_words(text, z),
    }
}

fn put_rest(text: &mut Text, state: &InputConditioner)
    ensures { Added text.old (shown_rest state.now) text.new }
{
    let log = chain_log::log(state);
    lines::put_dropped(text, log.dropped, log.notes.repairs.dropped);
    put_level(text, log.dclevel);
    lines::put_settled(text, log.iq);
}

// ---- the texts

// The report of a state and its span store, after so many samples were replaced.
pub fn write_report(
    state: &InputConditioner,
    spans: &[u64],
    replaced: u64,
    text: &mut [u8],
) -> usize
    ensures text { text.new ≡ put text.old 0 (report_text (report_in state.now spans.now replaced)) }
    ensures length { result ≡ min (length text.old) (length (report_text (report_in state.now spans.now replaced))) }
{
    let counts = state.counts;
    let mut report = Text::new(text);
    lines::put_samples(
        &mut report,
        replaced,
        counts.seen,
        counts.released,
        counts.held as u64,
    );
    put_counts(&mut report, &state.notes.log);
    put_spans(&mut report, state, spans);
    put_rest(&mut report, state);
    report.length
}
