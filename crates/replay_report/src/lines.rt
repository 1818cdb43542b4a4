// The lines that the replay program prints, put behind a text.

ghost use Rattle.complex.specs.View.{view64};
ghost use Rattle.rules.specs.Chain.{level_is};
ghost use Rattle.rules.specs.Log.{span_of};
ghost use Rattle.stage_log.specs.View.{stage_of, mark_of};
ghost use Rattle.iq.specs.View.{settled_of};
ghost use Rattle.replay_text.specs.Text.{letters, Added};
ghost use Rattle.replay_report.specs.Lines.{stage_name, mark_name, ring_name, sample_lines, count_line, span_line, dropped_line, level_line, settled_line};

use complex::Complex64;
use iq::Iq;
use replay_text::Text;
use stage_log::{Mark, Span, Stage};

pub fn put_samples(text: &mut Text, replaced: u64, seen: u64, released: u64, held: u64)
    ensures { Added text.old (sample_lines replaced seen released held) text.new }
{
    text.put_number(b"replaced ", replaced, b'\n');
    text.put_number(b"seen ", seen, b' ');
    text.put_number(b"final ", released, b' ');
    text.put_number(b"held ", held, b'\n');
}

// The name of a stage, and of a mark below, put as bytes and not by `Display`: the report's theorem
// (`replay_is`) says each byte of the lent store.
fn put_stage(text: &mut Text, stage: Stage)
    ensures { Added text.old (letters (stage_name (stage_of stage))) text.new }
{
    match stage {
        Stage::Impulse => text.put(b"impulse"),
        Stage::Dc => text.put(b"dc"),
        Stage::Iq => text.put(b"iq"),
    }
}

fn put_mark(text: &mut Text, kind: Mark)
    ensures { Added text.old (letters (mark_name (mark_of kind))) text.new }
{
    match kind {
        Mark::Repaired => text.put(b"repaired"),
        Mark::Flagged => text.put(b"flagged"),
        Mark::Corrected => text.put(b"corrected"),
        Mark::Uncertain => text.put(b"uncertain"),
    }
}

// The name of a ring.
pub fn put_ring(text: &mut Text, stage: Stage, kind: Mark)
    ensures { Added text.old (ring_name (stage_of stage) (mark_of kind)) text.new }
{
    put_stage(text, stage);
    text.put(b" ");
    put_mark(text, kind);
}

// The line of a count that isn't 0.
pub fn put_count(text: &mut Text, stage: Stage, kind: Mark, count: u64)
    ensures { Added text.old (count_line (stage_of stage) (mark_of kind) count) text.new }
{
    if count == 0 {
        return;
    }
    text.put(b"count ");
    put_ring(text, stage, kind);
    text.put_number(b" ", count, b'\n');
}

pub fn put_span(text: &mut Text, stage: Stage, kind: Mark, s: Span)
    ensures { Added text.old (span_line (stage_of stage) (mark_of kind) (span_of s.start s.len)) text.new }
{
    text.put(b"span ");
    put_ring(text, stage, kind);
    text.put_number(b" ", s.start, b' ');
    text.put_number(b"", s.len, b'\n');
}

pub fn put_dropped(text: &mut Text, spans: u64, repairs: u64)
    ensures { Added text.old (dropped_line spans repairs) text.new }
{
    text.put_number(b"dropped ", spans, b' ');
    text.put_number(b"", repairs, b'\n');
}

pub fn put_words(text: &mut Text, z: Complex64)
    ensures { Added text.old (level_line (level_is (view64 z))) text.new }
{
    text.put(b"dc ");
    text.put_hex(ieee::to_bits64(z.re));
    text.put(b" ");
    text.put_hex(ieee::to_bits64(z.im));
    text.put(b"\n");
}

pub fn put_settled(text: &mut Text, iq: Iq)
    ensures { Added text.old (settled_line (settled_of iq)) text.new }
{
    match iq {
        Iq::Off => text.put(b"iq off\n"),
        Iq::Observing => text.put(b"iq observing\n"),
        Iq::Correcting(_) => text.put(b"iq correcting\n"),
        Iq::Withheld => text.put(b"iq mismatch\n"),
    }
}
